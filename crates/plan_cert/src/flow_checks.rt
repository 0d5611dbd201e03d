ghost use Rattle.std.specs.Prelude.{◌≤ℤ◌, length, MatchOption};
ghost use Rattle.bud_base.specs.Soundness.{IsSound};
ghost use Rattle.bud_plans.specs.Plans.{HasPlanNumbers};
ghost use Rattle.cert_text.specs.Certs.{plan_in};
ghost use Rattle.plan_cert.specs.Failures.{IsFailure};
ghost use Rattle.plan_cert.specs.Numbers.{HasCounts, HasFlows, IsNegativeFlow, IsFlowAt, IsStartFlowAt, IsEndFlowAt};

use crate::answers::CertPlace;
use crate::numbers::{end_flow_at, item_flow_at, start_flow_at};
use bud_base::Problem;
use cert_text::Cert;

// The first flow below 0, of items, then starts, then ends.
pub fn first_negative(problem: &Problem, cert: &Cert) -> Option<CertPlace>
    requires sound { IsSound problem.now }
    requires counts { HasCounts problem.now cert.now }
    requires numbers { HasPlanNumbers (plan_in cert.now) }
    ensures { MatchOption result (HasFlows problem.now (plan_in cert.now)) (IsNegativeFlow problem.now (plan_in cert.now)) }
{
    if let Some(i) = first_negative_item(problem, cert) {
        return Some(CertPlace::Item(i));
    }
    if let Some(s) = first_negative_start(problem, cert) {
        return Some(CertPlace::Start(s));
    }
    match first_negative_end(problem, cert) {
        Some(e) => Some(CertPlace::End(e)),
        None => None,
    }
}

// The first item with a flow below 0.
fn first_negative_item(problem: &Problem, cert: &Cert) -> Option<u32>
    requires sound { IsSound problem.now }
    requires counts { HasCounts problem.now cert.now }
    requires numbers { HasPlanNumbers (plan_in cert.now) }
    ensures { IsFailure (IsFlowAt (plan_in cert.now)) (length problem.now.items) result }
{
    for i in 0..problem.items.len() {
        if item_flow_at(cert, i) < 0 {
            return Some(i as u32);
        }
    }
    None
}

// The first start with a flow below 0.
fn first_negative_start(problem: &Problem, cert: &Cert) -> Option<u32>
    requires sound { IsSound problem.now }
    requires counts { HasCounts problem.now cert.now }
    requires numbers { HasPlanNumbers (plan_in cert.now) }
    ensures { IsFailure (IsStartFlowAt (plan_in cert.now)) (length problem.now.starts) result }
{
    for s in 0..problem.starts.len() {
        if start_flow_at(cert, s) < 0 {
            return Some(s as u32);
        }
    }
    None
}

// The first end with a flow below 0.
fn first_negative_end(problem: &Problem, cert: &Cert) -> Option<u32>
    requires sound { IsSound problem.now }
    requires counts { HasCounts problem.now cert.now }
    requires numbers { HasPlanNumbers (plan_in cert.now) }
    ensures { IsFailure (IsEndFlowAt (plan_in cert.now)) (length problem.now.ends) result }
{
    for e in 0..problem.ends.len() {
        if end_flow_at(cert, e) < 0 {
            return Some(e as u32);
        }
    }
    None
}
