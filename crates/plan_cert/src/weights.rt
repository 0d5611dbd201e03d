ghost use Rattle.std.specs.Prelude.{◌≡◌, pos, ◌*ℤ◌, ◌<◌, ◌≤◌, length};
ghost use Rattle.bud_base.specs.Paths.{item_at, start_at, end_at};
ghost use Rattle.bud_base.specs.Soundness.{IsSound, IsSoundItem};
ghost use Rattle.bud_flow.specs.Sums.{number_at};
ghost use Rattle.bud_flow.specs.Flows.{item_value, value_of};
ghost use Rattle.bud_plans.specs.Budgets.{weight_of};
ghost use Rattle.bud_plans.specs.Plans.{IsPlanNumber, HasPlanNumbers, flow_of};
ghost use Rattle.cert_text.specs.Certs.{plan_in};
ghost use Rattle.plan_cert.specs.Numbers.{HasCounts};
ghost use Rattle.plan_cert.specs.Totals.{IsFactor, IsProduct, IsTotal, IsWeightAnswer};

use crate::answers::{CertAnswer, CertFault};
use crate::numbers::{budget_at, end_flow_at, item_flow_at, start_flow_at};
use bud_base::{Item, Problem};
use cert_text::Cert;

// The product of two numbers.
fn product(left: i64, right: i64) -> i128
    requires left { IsFactor left }
    requires right { IsFactor right }
    ensures value { result ≡ left *ℤ right }
    ensures range { IsProduct result }
{
    i128::from(left) * i128::from(right)
}

// An item's weight times its budget.
fn budget_term(problem: &Problem, cert: &Cert, i: usize) -> i128
    requires sound { IsSound problem.now }
    requires within { i < length problem.now.items }
    requires counts { HasCounts problem.now cert.now }
    requires numbers { HasPlanNumbers (plan_in cert.now) }
    ensures value { result ≡ pos (item_at problem.now.items i).weight *ℤ number_at (plan_in cert.now).budgets i }
    ensures range { IsProduct result }
{
    let weight = problem.items.as_slice()[i].weight;
    product(i64::from(weight), budget_at(cert, i))
}

// What an item with this flow adds to a flow's value.
fn item_worth(item: Item, flow: i64) -> i128
    requires weight { item.weight ≤ 1048576 }
    requires least { IsFactor item.least }
    requires greatest { IsFactor item.greatest }
    requires flow { IsPlanNumber flow }
    ensures value { result ≡ item_value item flow }
    ensures range { IsProduct result }
{
    let weight = i64::from(item.weight);
    if flow < weight {
        product(weight - flow, item.greatest)
    } else {
        -product(flow - weight, item.least)
    }
}

// What an item adds to the flow's value.
fn item_term(problem: &Problem, cert: &Cert, i: usize) -> i128
    requires sound { IsSound problem.now }
    requires within { i < length problem.now.items }
    requires counts { HasCounts problem.now cert.now }
    requires numbers { HasPlanNumbers (plan_in cert.now) }
    ensures value { result ≡ item_value (item_at problem.now.items i) (number_at (plan_in cert.now).flow i) }
    ensures range { IsProduct result }
{
    item_worth(problem.items.as_slice()[i], item_flow_at(cert, i))
}

// What a start takes from the flow's value.
fn start_term(problem: &Problem, cert: &Cert, s: usize) -> i128
    requires sound { IsSound problem.now }
    requires within { s < length problem.now.starts }
    requires counts { HasCounts problem.now cert.now }
    requires numbers { HasPlanNumbers (plan_in cert.now) }
    ensures value { result ≡ number_at (plan_in cert.now).start_flow s *ℤ (start_at problem.now.starts s).offset }
    ensures range { IsProduct result }
{
    let offset = problem.starts.as_slice()[s].offset;
    product(start_flow_at(cert, s), offset)
}

// What an end adds to the flow's value.
fn end_term(problem: &Problem, cert: &Cert, e: usize) -> i128
    requires sound { IsSound problem.now }
    requires within { e < length problem.now.ends }
    requires counts { HasCounts problem.now cert.now }
    requires numbers { HasPlanNumbers (plan_in cert.now) }
    ensures value { result ≡ number_at (plan_in cert.now).end_flow e *ℤ (end_at problem.now.ends e).require }
    ensures range { IsProduct result }
{
    let require = problem.ends.as_slice()[e].require;
    product(end_flow_at(cert, e), require)
}

// What the budgets weigh.
fn budgets_weight(problem: &Problem, cert: &Cert) -> i128
    requires sound { IsSound problem.now }
    requires counts { HasCounts problem.now cert.now }
    requires numbers { HasPlanNumbers (plan_in cert.now) }
    ensures { IsTotal (λ i. pos (item_at problem.now.items i).weight *ℤ number_at (plan_in cert.now).budgets i) (length problem.now.items) result }
{
    let mut total: i128 = 0;
    for i in 0..problem.items.len() {
        total += budget_term(problem, cert, i);
    }
    total
}

// What the items add to the flow's value.
fn items_value(problem: &Problem, cert: &Cert) -> i128
    requires sound { IsSound problem.now }
    requires counts { HasCounts problem.now cert.now }
    requires numbers { HasPlanNumbers (plan_in cert.now) }
    ensures { IsTotal (λ i. item_value (item_at problem.now.items i) (number_at (plan_in cert.now).flow i)) (length problem.now.items) result }
{
    let mut total: i128 = 0;
    for i in 0..problem.items.len() {
        total += item_term(problem, cert, i);
    }
    total
}

// What the starts take from the flow's value.
fn starts_value(problem: &Problem, cert: &Cert) -> i128
    requires sound { IsSound problem.now }
    requires counts { HasCounts problem.now cert.now }
    requires numbers { HasPlanNumbers (plan_in cert.now) }
    ensures { IsTotal (λ s. number_at (plan_in cert.now).start_flow s *ℤ (start_at problem.now.starts s).offset) (length problem.now.starts) result }
{
    let mut total: i128 = 0;
    for s in 0..problem.starts.len() {
        total += start_term(problem, cert, s);
    }
    total
}

// What the ends add to the flow's value.
fn ends_value(problem: &Problem, cert: &Cert) -> i128
    requires sound { IsSound problem.now }
    requires counts { HasCounts problem.now cert.now }
    requires numbers { HasPlanNumbers (plan_in cert.now) }
    ensures { IsTotal (λ e. number_at (plan_in cert.now).end_flow e *ℤ (end_at problem.now.ends e).require) (length problem.now.ends) result }
{
    let mut total: i128 = 0;
    for e in 0..problem.ends.len() {
        total += end_term(problem, cert, e);
    }
    total
}

// The flow's value.
fn flow_value(problem: &Problem, cert: &Cert) -> i128
    requires sound { IsSound problem.now }
    requires counts { HasCounts problem.now cert.now }
    requires numbers { HasPlanNumbers (plan_in cert.now) }
    ensures { result ≡ value_of problem.now (flow_of (plan_in cert.now)) }
{
    ends_value(problem, cert) - starts_value(problem, cert) + items_value(problem, cert)
}

// Compares the budgets' weight with the written weight and the flow's value.
pub fn compare_weights(problem: &Problem, cert: &Cert) -> CertAnswer
    requires sound { IsSound problem.now }
    requires counts { HasCounts problem.now cert.now }
    requires numbers { HasPlanNumbers (plan_in cert.now) }
    ensures { IsWeightAnswer problem.now (plan_in cert.now) result }
{
    let weight = budgets_weight(problem, cert);
    if cert.weight != weight {
        return CertAnswer::Fault(CertFault::Weight(weight, cert.weight));
    }
    let value = flow_value(problem, cert);
    if value != weight {
        return CertAnswer::Fault(CertFault::Weight(weight, value));
    }
    CertAnswer::Holds(weight)
}
