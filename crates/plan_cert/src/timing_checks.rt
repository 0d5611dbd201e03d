ghost use Rattle.std.specs.Prelude.{◌≡◌, ◌↔◌, ◌<◌, ◌≤◌, ◌≤ℤ◌, ◌+ℤ◌, length, IsTrue, MatchOption};
ghost use Rattle.bud_base.specs.Soundness.{IsSound};
ghost use Rattle.bud_plans.specs.Budgets.{IsWithinBounds, SuitBudgets};
ghost use Rattle.bud_plans.specs.Plans.{IsPlanNumber, HasPlanNumbers};
ghost use Rattle.cert_text.specs.Certs.{plan_in};
ghost use Rattle.plan_cert.specs.Failures.{IsFailure};
ghost use Rattle.plan_cert.specs.Numbers.{HasCounts, HasItemArrival, HasStartArrival, HasEndArrival};
ghost use Rattle.plan_cert.specs.Timing.{IsLate};

use crate::answers::CertFault;
use crate::numbers::{arrival_at, budget_at};
use bud_base::{ItemId, Problem};
use cert_text::Cert;

// Whether the item's budget is within its bounds.
fn is_bounded(problem: &Problem, cert: &Cert, i: usize) -> bool
    requires within { i < length problem.now.items }
    requires counts { HasCounts problem.now cert.now }
    requires numbers { HasPlanNumbers (plan_in cert.now) }
    ensures { IsTrue result ↔ IsWithinBounds problem.now (plan_in cert.now).budgets i }
{
    let item = problem.items.as_slice()[i];
    let budget = budget_at(cert, i);
    item.least <= budget && budget <= item.greatest
}

// Whether the delay after the first time is over by the second.
fn is_over(before: i64, delay: i64, after: i64) -> bool
    requires before { IsPlanNumber before }
    requires delay { IsPlanNumber delay }
    ensures { IsTrue result ↔ ((before +ℤ delay) ≤ℤ after) }
{
    before + delay <= after
}

// Whether the item's budget is over before the arrival at its last node.
fn has_item_arrival(problem: &Problem, cert: &Cert, i: usize) -> bool
    requires sound { IsSound problem.now }
    requires within { i < length problem.now.items }
    requires counts { HasCounts problem.now cert.now }
    requires numbers { HasPlanNumbers (plan_in cert.now) }
    ensures { IsTrue result ↔ HasItemArrival problem.now (plan_in cert.now) i }
{
    let item = problem.items.as_slice()[i];
    let before = arrival_at(cert, item.from.0 as usize);
    let after = arrival_at(cert, item.to.0 as usize);
    is_over(before, budget_at(cert, i), after)
}

// The first item whose budget is out of its bounds.
pub fn first_unbounded(problem: &Problem, cert: &Cert) -> Option<u32>
    requires sound { IsSound problem.now }
    requires counts { HasCounts problem.now cert.now }
    requires numbers { HasPlanNumbers (plan_in cert.now) }
    ensures { IsFailure (IsWithinBounds problem.now (plan_in cert.now).budgets) (length problem.now.items) result }
{
    for i in 0..problem.items.len() {
        if !is_bounded(problem, cert, i) {
            return Some(i as u32);
        }
    }
    None
}

// The first arrival that doesn't suit, of items, then starts, then ends.
pub fn first_late(problem: &Problem, cert: &Cert) -> Option<CertFault>
    requires sound { IsSound problem.now }
    requires counts { HasCounts problem.now cert.now }
    requires numbers { HasPlanNumbers (plan_in cert.now) }
    ensures { MatchOption result (SuitBudgets problem.now (plan_in cert.now).budgets (plan_in cert.now).arrivals) (IsLate problem.now (plan_in cert.now)) }
{
    if let Some(i) = first_late_item(problem, cert) {
        return Some(CertFault::Arrival(ItemId(i)));
    }
    if let Some(s) = first_late_start(problem, cert) {
        return Some(CertFault::Start(s));
    }
    match first_late_end(problem, cert) {
        Some(e) => Some(CertFault::End(e)),
        None => None,
    }
}

// The first item whose budget isn't over before the arrival at its last node.
fn first_late_item(problem: &Problem, cert: &Cert) -> Option<u32>
    requires sound { IsSound problem.now }
    requires counts { HasCounts problem.now cert.now }
    requires numbers { HasPlanNumbers (plan_in cert.now) }
    ensures { IsFailure (HasItemArrival problem.now (plan_in cert.now)) (length problem.now.items) result }
{
    for i in 0..problem.items.len() {
        if !has_item_arrival(problem, cert, i) {
            return Some(i as u32);
        }
    }
    None
}

// Whether the arrival at the start's node is no earlier than its offset.
fn has_start_arrival(problem: &Problem, cert: &Cert, s: usize) -> bool
    requires sound { IsSound problem.now }
    requires within { s < length problem.now.starts }
    requires counts { HasCounts problem.now cert.now }
    requires numbers { HasPlanNumbers (plan_in cert.now) }
    ensures { IsTrue result ↔ HasStartArrival problem.now (plan_in cert.now) s }
{
    let start = problem.starts.as_slice()[s];
    start.offset <= arrival_at(cert, start.node.0 as usize)
}

// Whether the arrival at the end's node is no later than its required time.
fn has_end_arrival(problem: &Problem, cert: &Cert, e: usize) -> bool
    requires sound { IsSound problem.now }
    requires within { e < length problem.now.ends }
    requires counts { HasCounts problem.now cert.now }
    requires numbers { HasPlanNumbers (plan_in cert.now) }
    ensures { IsTrue result ↔ HasEndArrival problem.now (plan_in cert.now) e }
{
    let end = problem.ends.as_slice()[e];
    arrival_at(cert, end.node.0 as usize) <= end.require
}

// The first start with an arrival before its offset.
fn first_late_start(problem: &Problem, cert: &Cert) -> Option<u32>
    requires sound { IsSound problem.now }
    requires counts { HasCounts problem.now cert.now }
    requires numbers { HasPlanNumbers (plan_in cert.now) }
    ensures { IsFailure (HasStartArrival problem.now (plan_in cert.now)) (length problem.now.starts) result }
{
    for s in 0..problem.starts.len() {
        if !has_start_arrival(problem, cert, s) {
            return Some(s as u32);
        }
    }
    None
}

// The first end with an arrival past its required time.
fn first_late_end(problem: &Problem, cert: &Cert) -> Option<u32>
    requires sound { IsSound problem.now }
    requires counts { HasCounts problem.now cert.now }
    requires numbers { HasPlanNumbers (plan_in cert.now) }
    ensures { IsFailure (HasEndArrival problem.now (plan_in cert.now)) (length problem.now.ends) result }
{
    for e in 0..problem.ends.len() {
        if !has_end_arrival(problem, cert, e) {
            return Some(e as u32);
        }
    }
    None
}
