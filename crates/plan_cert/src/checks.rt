ghost use Rattle.std.specs.Prelude.{◌≡◌, ◌<◌, ◌^◌, length, MatchOption};
ghost use Rattle.bud_base.specs.Soundness.{IsSound};
ghost use Rattle.bud_plans.specs.Budgets.{AreBest, weight_of};
ghost use Rattle.bud_plans.specs.Plans.{HasPlanNumbers, ProvesBudgets, flow_of};
ghost use Rattle.cert_text.specs.Certs.{plan_in};
ghost use Rattle.plan_cert.specs.Certificates.{AreNamed, IsCertAnswer, IsCertOf};
ghost use Rattle.plan_cert.specs.Numbers.{HasCounts, IsNumbersAnswer, OnHolds, IfHolds};
ghost use Rattle.plan_cert.specs.Raw.{IsRawAnswer, IsRawCert};
ghost use Rattle.plan_cert.specs.Timing.{IsLate};

use crate::answers::{CertAnswer, CertFault};
use crate::flow_checks::first_negative;
use crate::line_checks::first_wrong_line;
use crate::naming::Naming;
use crate::sums::Sums;
use crate::timing_checks::{first_late, first_unbounded};
use crate::weights::compare_weights;
use bud_base::{ItemId, NodeId, Problem};
use cert_text::Cert;

/// Checks a certificate of a raw problem, whoever wrote it, and takes no memory.
///
/// It holds exactly where it has version 1, its lines name the problem's nodes, items, starts and ends in their order,
/// its budgets are within bounds, its arrivals suit them, its flow is balanced, and the budgets' weight, the flow's
/// value and the written weight are one. Then its budgets are best over all paths.
pub fn check_raw(problem: &Problem, cert: &Cert, sums: &mut Sums) -> CertAnswer
    requires sound { IsSound problem.now }
    requires numbers { HasPlanNumbers (plan_in cert.now) }
    requires sums { sums.old ≡ problem.now.nodes }

    ensures answer { IsRawAnswer problem.now cert.now result }
    ensures accepts { IsRawCert problem.now cert.now → result ≡ CertAnswer.Holds cert.now.weight }

    // What a certificate that holds shows.
    ensures weight { IfHolds result (λ weight. weight_of problem.now (plan_in cert.now).budgets ≡ weight) }
    ensures best { OnHolds result (AreBest problem.now (plan_in cert.now).budgets) }
    ensures proves { OnHolds result (ProvesBudgets problem.now (plan_in cert.now).budgets (flow_of (plan_in cert.now))) }

    ensures sums { sums.new ≡ sums.old }
{
    check_named(problem, problem, cert, sums)
}

/// Checks a certificate of a problem whose lines have these names, whoever wrote it. It takes no memory.
///
/// It holds exactly where it has the policy's version, its lines are those of the problem in its order with its names,
/// its budgets are within bounds, its arrivals suit them, its flow is balanced, and the budgets' weight, the flow's
/// value and the written weight are one. Then its budgets are best over all paths.
pub fn check_named<N: Naming>(
    names: &N,
    problem: &Problem,
    cert: &Cert,
    sums: &mut Sums,
) -> CertAnswer
    requires sound { IsSound problem.now }
    requires named { AreNamed (N.has names.now) problem.now }
    requires classes { length (N.names names.now).classes < 2 ^ 32 }
    requires numbers { HasPlanNumbers (plan_in cert.now) }
    requires sums { sums.old ≡ problem.now.nodes }

    ensures answer { IsCertAnswer (N.names names.now) problem.now cert.now result }
    ensures accepts { IsCertOf (N.names names.now) problem.now cert.now → result ≡ CertAnswer.Holds cert.now.weight }

    // What a certificate that holds shows.
    ensures weight { IfHolds result (λ weight. weight_of problem.now (plan_in cert.now).budgets ≡ weight) }
    ensures best { OnHolds result (AreBest problem.now (plan_in cert.now).budgets) }
    ensures proves { OnHolds result (ProvesBudgets problem.now (plan_in cert.now).budgets (flow_of (plan_in cert.now))) }

    ensures sums { sums.new ≡ sums.old }
{
    let version = names.version();
    if version != cert.policy {
        return CertAnswer::Fault(CertFault::Version(version, cert.policy));
    }
    match first_wrong_line(names, problem, cert) {
        Some(place) => CertAnswer::Fault(CertFault::Shape(place)),
        None => check_numbers(problem, cert, sums),
    }
}

// Checks the numbers of a certificate that has the problem's lines.
fn check_numbers(problem: &Problem, cert: &Cert, sums: &mut Sums) -> CertAnswer
    requires sound { IsSound problem.now }
    requires counts { HasCounts problem.now cert.now }
    requires numbers { HasPlanNumbers (plan_in cert.now) }
    requires sums { sums.old ≡ problem.now.nodes }
    ensures answer { IsNumbersAnswer problem.now (plan_in cert.now) result }
    ensures sums { sums.new ≡ sums.old }
{
    if let Some(i) = first_unbounded(problem, cert) {
        return CertAnswer::Fault(CertFault::Bounds(ItemId(i)));
    }
    if let Some(fault) = first_late(problem, cert) {
        return CertAnswer::Fault(fault);
    }
    if let Some(place) = first_negative(problem, cert) {
        return CertAnswer::Fault(CertFault::NegativeFlow(place));
    }
    if let Some(node) = sums.first_unkept(problem, cert) {
        return CertAnswer::Fault(CertFault::Balance(NodeId(node)));
    }
    compare_weights(problem, cert)
}
