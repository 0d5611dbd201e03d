ghost use Rattle.std.specs.Prelude.{◌≡◌, ◌==◌, ℕ, pos, ◌+ℤ◌, ◌-ℤ◌, ◌<◌, ◌^◌, length, if◌then◌else◌};
ghost use Rattle.bud_base.specs.Soundness.{IsSound};
ghost use Rattle.bud_flow.specs.Sums.{number_at};
ghost use Rattle.bud_plans.specs.Plans.{IsPlanNumber, HasPlanNumbers};
ghost use Rattle.cert_text.specs.Certs.{plan_in};
ghost use Rattle.plan_cert.specs.Failures.{IsFailure};
ghost use Rattle.plan_cert.specs.NodeSums.{IsNodeSum, AreSums, items_sum, inflow_sum, excess_sum};
ghost use Rattle.plan_cert.specs.Numbers.{HasCounts, IsKeptAt};

use crate::numbers::{end_flow_at, item_flow_at, start_flow_at};
use bud_base::Problem;
use cert_text::Cert;

// Sets each sum to 0.
fn clear(sums: &mut [i128])
    ensures { AreSums (length sums.old) sums.new (λ node. pos 0) }
{
    for sum in sums.iter_mut() {
        *sum = 0;
    }
}

// Adds a number to the sum of a node.
fn add(sums: &mut [i128], node: usize, number: i64)
    requires node { node < length sums.old }
    requires sum { IsNodeSum (number_at sums.old node) }
    requires number { IsPlanNumber number }
    ensures { (v : ℕ) → number_at sums.new v ≡ number_at sums.old v +ℤ (if node == v then number else pos 0) }
{
    sums[node] += i128::from(number);
}

// Takes a number from the sum of a node.
fn subtract(sums: &mut [i128], node: usize, number: i64)
    requires node { node < length sums.old }
    requires sum { IsNodeSum (number_at sums.old node) }
    requires number { IsPlanNumber number }
    ensures { (v : ℕ) → number_at sums.new v ≡ number_at sums.old v -ℤ (if node == v then number else pos 0) }
{
    sums[node] -= i128::from(number);
}

// Adds what the items bring to nodes, and takes what they carry away.
fn add_items(sums: &mut [i128], problem: &Problem, cert: &Cert)
    requires sound { IsSound problem.now }
    requires counts { HasCounts problem.now cert.now }
    requires numbers { HasPlanNumbers (plan_in cert.now) }
    requires sums { AreSums problem.now.nodes sums.old (λ node. pos 0) }
    ensures { AreSums problem.now.nodes sums.new (items_sum problem.now (plan_in cert.now) (length problem.now.items)) }
{
    for i in 0..problem.items.len() {
        let item = problem.items.as_slice()[i];
        let flow = item_flow_at(cert, i);
        add(sums, item.to.0 as usize, flow);
        subtract(sums, item.from.0 as usize, flow);
    }
}

// Adds what comes in at the starts.
fn add_starts(sums: &mut [i128], problem: &Problem, cert: &Cert)
    requires sound { IsSound problem.now }
    requires counts { HasCounts problem.now cert.now }
    requires numbers { HasPlanNumbers (plan_in cert.now) }
    requires sums { AreSums problem.now.nodes sums.old (items_sum problem.now (plan_in cert.now) (length problem.now.items)) }
    ensures { AreSums problem.now.nodes sums.new (inflow_sum problem.now (plan_in cert.now) (length problem.now.starts)) }
{
    for s in 0..problem.starts.len() {
        let node = problem.starts.as_slice()[s].node;
        let flow = start_flow_at(cert, s);
        add(sums, node.0 as usize, flow);
    }
}

// Takes what goes out at the ends.
fn subtract_ends(sums: &mut [i128], problem: &Problem, cert: &Cert)
    requires sound { IsSound problem.now }
    requires counts { HasCounts problem.now cert.now }
    requires numbers { HasPlanNumbers (plan_in cert.now) }
    requires sums { AreSums problem.now.nodes sums.old (inflow_sum problem.now (plan_in cert.now) (length problem.now.starts)) }
    ensures { AreSums problem.now.nodes sums.new (excess_sum problem.now (plan_in cert.now) (length problem.now.ends)) }
{
    for e in 0..problem.ends.len() {
        let node = problem.ends.as_slice()[e].node;
        let flow = end_flow_at(cert, e);
        subtract(sums, node.0 as usize, flow);
    }
}

// The first sum that isn't 0.
fn first_other(sums: &[i128]) -> Option<u32>
    requires { length sums.now < 2 ^ 32 }
    ensures { IsFailure (λ node. number_at sums.now node ≡ pos 0) (length sums.now) result }
{
    for (node, sum) in sums.iter().enumerate() {
        if *sum != 0 {
            return Some(node as u32);
        }
    }
    None
}

// The first node into which more or less comes than goes out.
pub fn first_unkept(sums: &mut [i128], problem: &Problem, cert: &Cert) -> Option<u32>
    requires sound { IsSound problem.now }
    requires counts { HasCounts problem.now cert.now }
    requires numbers { HasPlanNumbers (plan_in cert.now) }
    requires nodes { length sums.old ≡ problem.now.nodes }
    ensures { IsFailure (IsKeptAt problem.now (plan_in cert.now)) problem.now.nodes result }
{
    clear(sums);
    add_items(sums, problem, cert);
    add_starts(sums, problem, cert);
    subtract_ends(sums, problem, cert);
    first_other(sums)
}
