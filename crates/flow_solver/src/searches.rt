ghost use Rattle.std.specs.Prelude.{◌≡◌, ℕ, ◌+◌, ◌*◌, ◌<◌, ◌≤◌, ◌+ℤ◌, ◌<ℤ◌, ◌≤ℤ◌, ◌^◌, pos, false, List, Option, length, IsTrue};
ghost use Rattle.bud_base.specs.Soundness.{IsSound};
ghost use Rattle.residual.specs.Arcs.{reduced_cost};
ghost use Rattle.residual.specs.Balances.{HasRoom};
ghost use Rattle.residual.specs.Bounds.{IsSmall, IsWithin};
ghost use Rattle.residual.specs.Leaving.{leaving};
ghost use Rattle.residual.specs.Networks.{Fits, IsKey, IsLawful, AreReduced, excess_at};
ghost use Rattle.flow_solver.specs.Pushes.{IsTaken};
ghost use Rattle.flow_solver.specs.Searches.{HasExcessAnswer, AreTaken, IsSeeded, IsSearching};
ghost use Rattle.flow_solver.specs.Spreading.{IsScanning, looked_along, entries_of};

use crate::entries::Entry;
use bud_base::{NodeId, Problem, Steps};
use residual::{Look, Net};
use search_heap::{Near, Search};
use std::sync::ledger::Ledger;

/// Whether a node has excess.
pub fn has_excess(net: &Net, node: NodeId) -> bool
    requires { node.0 < net.now.nodes + 1 }
    ensures lawful { IsLawful net.now }
    ensures yes { IsTrue result → pos 0 <ℤ excess_at net.now node.0 }
    ensures no { result ≡ false → excess_at net.now node.0 ≤ℤ pos 0 }
{
    net.excess(node) > 0
}

/// A node with excess, if there is one.
pub fn node_with_excess(net: &Net, nodes: u32) -> Option<NodeId>
    requires nodes { net.now.nodes ≡ nodes }
    ensures lawful { IsLawful net.now }
    ensures answer { HasExcessAnswer net.now result }
{
    if has_excess(net, NodeId(nodes)) {
        return Some(NodeId(nodes));
    }
    for node in 0..nodes {
        if has_excess(net, NodeId(node)) {
            return Some(NodeId(node));
        }
    }
    None
}

/// Begins a search at a node, with no node taken.
pub fn begin(front: &mut Search, node: NodeId)
    requires { node.0 < length front.old.entries }
    ensures seeded { IsSeeded front.new node.0 }
    ensures room { length front.new.entries ≡ length front.old.entries }
{
    front.restart();
    front.reach(node, 0, None);
}

/// The cost of a residual arc and the potential that it gains, in ps.
fn cost_along(net: &Net, look: &Look) -> i64
    requires from { look.now.from.0 < net.now.nodes + 1 }
    requires to { look.now.to.0 < net.now.nodes + 1 }
    requires cost { IsSmall look.now.cost }
    ensures cost { result ≡ reduced_cost net.now.potentials look.now }
    ensures within { IsWithin (pos (3 * 2 ^ 60)) result }
{
    look.cost + (net.potential(look.to) - net.potential(look.from))
}

/// How far a residual arc leads from a node, in ps.
fn distance_along(net: &Net, look: &Look, near: Near) -> i64
    requires from { look.now.from.0 < net.now.nodes + 1 }
    requires to { look.now.to.0 < net.now.nodes + 1 }
    requires cost { IsSmall look.now.cost }
    requires small { IsWithin (pos (2 ^ 60)) near.distance }
    ensures distance { result ≡ near.distance +ℤ reduced_cost net.now.potentials look.now }
    ensures within { IsWithin (pos (2 ^ 62)) result }
{
    near.distance + cost_along(net, look)
}

/// Looks along a residual arc that leaves a node; where it has room, the node that it leads to is reached.
fn look_along<L: Ledger>(
    net: &Net,
    near: Near,
    arc: usize,
    front: &mut Search,
    steps: &mut Steps<L>,
)
    requires key { IsKey net.now arc }
    requires small { IsWithin (pos (2 ^ 60)) near.distance }
    requires room { length front.old.entries ≡ net.now.nodes + 1 }
    ensures { front.new ≡ record front.old { entries = looked_along net.now near.distance arc front.old.entries } }
{
    let look = net.look(arc, steps);
    if look.room <= 0 {
        return;
    }
    let distance = distance_along(net, &look, near);
    front.reach(look.to, distance, Some(arc));
}

/// Looks along each residual arc that leaves the node taken last.
fn scan<L: Ledger>(net: &Net, near: Near, front: &mut Search, steps: &mut Steps<L>)
    requires node { near.node.0 < net.now.nodes + 1 }
    requires lawful { IsLawful net.now }
    requires reduced { AreReduced net.now net.now.potentials }
    requires small { IsWithin (pos (2 ^ 60)) near.distance }
    requires room { length front.old.entries ≡ net.now.nodes + 1 }
    ensures scanned { (entries : List (Option Entry)) (count : ℕ) → IsScanning net.now entries front.old.entries near count 0 → IsScanning net.now entries front.new.entries near count (length (leaving net.now near.node.0)) }
    ensures taken { front.new.taken ≡ front.old.taken }
    ensures room { length front.new.entries ≡ net.now.nodes + 1 }
{
    for place in 0..net.degree(near.node) {
        let arc = net.arc_at(near.node, place);
        look_along(net, near, arc, front, steps);
    }
}

/// Takes the nearest node again and again, until it lacks flow.
pub fn search<L: Ledger>(
    net: &Net,
    problem: &Problem,
    front: &mut Search,
    steps: &mut Steps<L>,
) -> Near
    requires sound { IsSound problem.now }
    requires fits { Fits net.now problem.now }
    requires lawful { IsLawful net.now }
    requires reduced { AreReduced net.now net.now.potentials }
    requires room { HasRoom net.now }
    requires searching { IsSearching net.now (entries_of front.old.entries) front.old }
    ensures taken { (count : ℕ) × AreTaken net.now (entries_of front.new.entries) result.distance count }
    ensures there { IsTaken (entries_of front.new.entries) result.node.0 }
    ensures lacks { excess_at net.now result.node.0 <ℤ pos 0 }
    ensures size { length front.new.entries ≡ net.now.nodes + 1 }
{
    'nodes: loop {
        let Some(near) = front.nearest() else {
            unreachable!()
        };
        if net.excess(near.node) < 0 {
            return near;
        }
        scan(net, near, front, steps);
    }
}
