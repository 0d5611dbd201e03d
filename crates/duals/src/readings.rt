ghost use Rattle.std.specs.Prelude.{◌≡◌, ◌<◌, ◌≤◌, ◌+◌, ◌≤ℤ◌, ◌^◌, ℕ, pos, IfOk};
ghost use Rattle.bud_flow.specs.Sums.{number_at};
ghost use Rattle.residual.specs.Networks.{IsLawful, item_flow_at, start_flow_at, end_flow_at};
ghost use Rattle.duals.specs.Terms.{AreTerms};

use bud_base::{ItemId, NodeId};
use residual::Net;
use std::alloc::{AllocError, Global};

/// The potentials of the nodes, counted from the root's, in ps.
pub fn arrivals_of(alloc: Global, net: &Net, nodes: u32) -> Result<Vec<i64>, AllocError>
    requires nodes { net.now.nodes ≡ nodes }
    ensures arrivals { IfOk result (λ arrivals. AreTerms (number_at net.now.potentials) nodes arrivals.items) }
    ensures lawful { IsLawful net.now }
{
    let root = net.potential(NodeId(nodes));
    let mut arrivals = Vec::with_capacity(alloc, nodes as usize)?;
    for node in 0..nodes {
        arrivals.push(net.potential(NodeId(node)) - root)?;
    }
    Ok(arrivals)
}

/// A flow that is at most 2^44, as a plan has it.
fn plan_flow(flow: i128) -> i64
    requires least { pos 0 ≤ℤ flow }
    requires most { flow ≤ℤ pos (2 ^ 44) }
    ensures { result ≡ flow }
{
    flow as i64
}

/// The flows of all items.
pub fn item_flows_of(alloc: Global, net: &Net, count: u32) -> Result<Vec<i64>, AllocError>
    requires count { net.now.items ≡ count }
    requires lawful { IsLawful net.now }
    requires small { (i : ℕ) → i < count → item_flow_at net.now i ≤ℤ pos (2 ^ 44) }
    ensures { IfOk result (λ flows. AreTerms (item_flow_at net.now) count flows.items) }
{
    let mut flows = Vec::with_capacity(alloc, count as usize)?;
    for item in 0..count {
        flows.push(plan_flow(net.item_flow(ItemId(item))))?;
    }
    Ok(flows)
}

/// The flows of all starts.
pub fn start_flows_of(alloc: Global, net: &Net, count: u32) -> Result<Vec<i64>, AllocError>
    requires count { net.now.starts ≡ count }
    requires lawful { IsLawful net.now }
    requires small { (s : ℕ) → s < count → start_flow_at net.now s ≤ℤ pos (2 ^ 44) }
    ensures { IfOk result (λ flows. AreTerms (start_flow_at net.now) count flows.items) }
{
    let mut flows = Vec::with_capacity(alloc, count as usize)?;
    for start in 0..count {
        flows.push(plan_flow(net.start_flow(start)))?;
    }
    Ok(flows)
}

/// The flows of all ends.
pub fn end_flows_of(alloc: Global, net: &Net, count: u32) -> Result<Vec<i64>, AllocError>
    requires count { net.now.ends ≡ count }
    requires lawful { IsLawful net.now }
    requires small { (e : ℕ) → e < count → end_flow_at net.now e ≤ℤ pos (2 ^ 44) }
    ensures { IfOk result (λ flows. AreTerms (end_flow_at net.now) count flows.items) }
{
    let mut flows = Vec::with_capacity(alloc, count as usize)?;
    for end in 0..count {
        flows.push(plan_flow(net.end_flow(end)))?;
    }
    Ok(flows)
}
