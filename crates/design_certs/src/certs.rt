ghost use Rattle.std.specs.Prelude.{◌≡◌, ◌<◌, ◌^◌, length, IfOk};
ghost use Rattle.bud_plans.specs.Budgets.{AreBest, weight_of};
ghost use Rattle.bud_plans.specs.Plans.{IsPlanOf, IsHolding, HasPlanNumbers, ProvesBudgets, flow_of};
ghost use Rattle.cert_text.specs.Certs.{plan_in};
ghost use Rattle.cert_text.specs.Writing.{IsInTextRanges};
ghost use Rattle.plan_cert.specs.Numbers.{OnHolds, IfHolds};
ghost use Rattle.design_certs.specs.DesignCerts.{IsOfDesign, HasTextNames, HasDesignLines, IsDesignCert, IsDesignAnswer};

use crate::layer_names::LayerNames;
use bud_design::{Constraints, Layered};
use bud_plans::Plan;
use cert_text::Cert;
use flat_design::Flat;
use plan_cert::{CertAnswer, Sums, cert_named, check_named};
use std::alloc::{AllocError, Global};

/// The certificate of a plan of a layering: the policy's version, the lines of the classes, those of the problem in its
/// order with the printed names of pins, and the plan's numbers.
#[tactic(auto, using(crate::proofs::Naming::class_lines_length))]
pub fn cert_of(
    alloc: Global,
    layered: &Layered,
    flat: &Flat,
    all: &Constraints,
    plan: &Plan,
) -> Result<Cert, AllocError>
    requires layered { IsOfDesign layered.now flat.now }
    requires classes { length layered.now.classes < 2 ^ 32 }
    requires plan { IsPlanOf layered.now.problem plan.now }
    ensures version { IfOk result (λ cert. cert.policy ≡ layered.now.version) }
    ensures lines { IfOk result (HasDesignLines layered.now flat.now all.now) }
    ensures plan { IfOk result (λ cert. plan_in cert ≡ plan.now) }
    // The certificate of a plan that holds is one that `check_cert` accepts.
    ensures holds { IsHolding layered.now.problem plan.now → IfOk result (IsDesignCert layered.now flat.now all.now) }
    // What `write_cert` asks for, so that the written text is read as the certificate.
    ensures ranges { HasTextNames layered.now flat.now all.now → HasPlanNumbers plan.now → IfOk result IsInTextRanges }
{
    let names = LayerNames { layered, flat, all };
    cert_named(alloc, &names, &layered.problem, plan)
}

/// Checks a certificate of a layering, whoever wrote it. It takes no memory.
///
/// It holds exactly where it has the policy's version, its lines are those of the classes and of the problem in its
/// order with the printed names of pins, its budgets are within bounds, its arrivals suit them, its flow is balanced,
/// and the budgets' weight, the flow's value and the written weight are one. Then its budgets are best over all paths.
#[tactic(auto, using(crate::proofs::Naming::class_lines_length))]
pub fn check_cert(
    layered: &Layered,
    flat: &Flat,
    all: &Constraints,
    cert: &Cert,
    sums: &mut Sums,
) -> CertAnswer
    requires layered { IsOfDesign layered.now flat.now }
    requires classes { length layered.now.classes < 2 ^ 32 }
    requires numbers { HasPlanNumbers (plan_in cert.now) }
    requires sums { sums.old ≡ layered.now.problem.nodes }

    ensures answer { IsDesignAnswer layered.now flat.now all.now cert.now result }
    ensures accepts { IsDesignCert layered.now flat.now all.now cert.now → result ≡ CertAnswer.Holds cert.now.weight }

    // What a certificate that holds shows.
    ensures weight { IfHolds result (λ weight. weight_of layered.now.problem (plan_in cert.now).budgets ≡ weight) }
    ensures best { OnHolds result (AreBest layered.now.problem (plan_in cert.now).budgets) }
    ensures proves { OnHolds result (ProvesBudgets layered.now.problem (plan_in cert.now).budgets (flow_of (plan_in cert.now))) }

    ensures sums { sums.new ≡ sums.old }
{
    let names = LayerNames { layered, flat, all };
    check_named(&names, &layered.problem, cert, sums)
}
