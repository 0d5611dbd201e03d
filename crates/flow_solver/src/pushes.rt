ghost use Rattle.std.specs.Prelude.{◌≡◌, ℕ, ◌+◌, ◌*◌, ◌<◌, ◌≤◌, ◌^◌, ◌+ℤ◌, ◌-ℤ◌, ◌<ℤ◌, ◌≤ℤ◌, ◌⊎◌, pos, None, length};
ghost use Rattle.bud_flow.specs.Sums.{number_at};
ghost use Rattle.residual.specs.Bounds.{IsWithin};
ghost use Rattle.residual.specs.Networks.{AreReduced, IsLawful, excess_at};
ghost use Rattle.flow_solver.specs.Entries.{by_at, label_at};
ghost use Rattle.flow_solver.specs.Lifts.{AreLifted, IsLiftedAt, with_potentials};
ghost use Rattle.flow_solver.specs.Pushes.{IsTree, IsTaken, IsAmount, IsPushed};
ghost use Rattle.flow_solver.specs.Spreading.{entries_of};

use crate::entries::{arc_to, label_to};
use bud_base::{NodeId, Steps};
use residual::Net;
use search_heap::Search;
use std::sync::ledger::Ledger;

/// Lifts each node by what the root's label is above its own, one after another.
fn raise_all(net: &mut Net, nodes: u32, front: &Search, last: i64)
    requires nodes { net.old.nodes ≡ nodes }
    requires size { length front.now.entries ≡ nodes + 1 }
    requires lawful { IsLawful net.old }
    requires labels { (v : ℕ) → v < nodes + 1 → IsWithin (pos (2 ^ 60)) (label_at (entries_of front.now.entries) last v) }
    requires small { (v : ℕ) → v < nodes → IsWithin (pos (2 ^ 60)) (number_at net.old.potentials v +ℤ (label_at (entries_of front.now.entries) last nodes -ℤ label_at (entries_of front.now.entries) last v)) }
    ensures lifted { AreLifted nodes net.old.potentials net.new.potentials (label_at (entries_of front.now.entries) last) }
    ensures same { net.new ≡ with_potentials net.old net.new.potentials net.new.is_open }
    ensures lawful { IsLawful net.new }
{
    let root = label_to(front, last, NodeId(nodes));
    for node in 0..nodes {
        let by = root - label_to(front, last, NodeId(node));
        net.lift(NodeId(node), by);
    }
}

/// Lifts a node, unless it is the root, by what the label of the node taken last is above its own.
fn lift_taken(net: &mut Net, nodes: u32, front: &Search, last: i64, node: NodeId)
    requires nodes { net.old.nodes ≡ nodes }
    requires size { length front.now.entries ≡ nodes + 1 }
    requires node { node.0 < nodes + 1 }
    requires lawful { IsLawful net.old }
    requires label { IsWithin (pos (2 ^ 60)) (label_at (entries_of front.now.entries) last node.0) }
    requires last { IsWithin (pos (2 ^ 60)) last }
    requires small { node.0 < nodes → IsWithin (pos (2 ^ 60)) (number_at net.old.potentials node.0 +ℤ (last -ℤ label_at (entries_of front.now.entries) last node.0)) }
    requires root { label_at (entries_of front.now.entries) last nodes ≡ last }
    ensures { IsLiftedAt net.old net.new node.0 (last -ℤ label_at (entries_of front.now.entries) last node.0) }
{
    if node.0 == nodes {
        return;
    }
    let by = last - label_to(front, last, node);
    net.lift(node, by);
}

/// Lifts the nodes that were taken, where all others and the root have the label of the node taken last.
fn raise_taken(net: &mut Net, nodes: u32, front: &Search, last: i64)
    requires nodes { net.old.nodes ≡ nodes }
    requires size { length front.now.entries ≡ nodes + 1 }
    requires lawful { IsLawful net.old }
    requires labels { (v : ℕ) → v < nodes + 1 → IsWithin (pos (2 ^ 60)) (label_at (entries_of front.now.entries) last v) }
    requires small { (v : ℕ) → v < nodes → IsWithin (pos (2 ^ 60)) (number_at net.old.potentials v +ℤ (label_at (entries_of front.now.entries) last nodes -ℤ label_at (entries_of front.now.entries) last v)) }
    requires root { label_at (entries_of front.now.entries) last nodes ≡ last }
    ensures lifted { AreLifted nodes net.old.potentials net.new.potentials (label_at (entries_of front.now.entries) last) }
    ensures same { net.new ≡ with_potentials net.old net.new.potentials net.new.is_open }
    ensures lawful { IsLawful net.new }
{
    for place in 0..front.taken_count() {
        let Some(node) = front.taken(place) else {
            unreachable!()
        };
        lift_taken(net, nodes, front, last, node);
    }
}

/// Lifts each node by what the root's label is above its own. Where that is the label of the nodes that weren't taken, these stay.
pub fn raise(net: &mut Net, nodes: u32, front: &Search, last: i64)
    requires nodes { net.old.nodes ≡ nodes }
    requires size { length front.now.entries ≡ nodes + 1 }
    requires lawful { IsLawful net.old }
    requires labels { (v : ℕ) → v < nodes + 1 → IsWithin (pos (2 ^ 60)) (label_at (entries_of front.now.entries) last v) }
    requires small { (v : ℕ) → v < nodes → IsWithin (pos (2 ^ 60)) (number_at net.old.potentials v +ℤ (label_at (entries_of front.now.entries) last nodes -ℤ label_at (entries_of front.now.entries) last v)) }
    ensures lifted { AreLifted nodes net.old.potentials net.new.potentials (label_at (entries_of front.now.entries) last) }
    ensures same { net.new ≡ with_potentials net.old net.new.potentials net.new.is_open }
    ensures lawful { IsLawful net.new }
{
    if label_to(front, last, NodeId(nodes)) == last {
        raise_taken(net, nodes, front, last);
    } else {
        raise_all(net, nodes, front, last);
    }
}

/// The smaller of two amounts.
fn smaller(one: i128, other: i128) -> i128
    ensures one { result ≤ℤ one }
    ensures other { result ≤ℤ other }
    ensures either { (result ≡ one) ⊎ (result ≡ other) }
{
    if one < other { one } else { other }
}

/// The greatest amount that can be pushed to a node that lacks flow, back along the entries.
pub fn amount_along<L: Ledger>(
    net: &Net,
    front: &Search,
    node: NodeId,
    steps: &mut Steps<L>,
) -> i128
    requires tree { IsTree net.now (entries_of front.now.entries) }
    requires taken { IsTaken (entries_of front.now.entries) node.0 }
    requires lacks { excess_at net.now node.0 <ℤ pos 0 }
    ensures amount { IsAmount net.now (entries_of front.now.entries) node.0 result }
    ensures small { IsWithin (pos (2 ^ 113)) result }
{
    let mut amount = -net.excess(node);
    let mut at = node;
    'way: while let Some(arc) = arc_to(front, at) {
        let look = net.look(arc, steps);
        amount = smaller(amount, look.room);
        at = look.from;
    }
    smaller(amount, net.excess(at))
}

/// Pushes an amount to a node, over each arc back along the entries.
pub fn push_along<L: Ledger>(
    net: &mut Net,
    front: &Search,
    node: NodeId,
    amount: i128,
    steps: &mut Steps<L>,
)
    requires tree { IsTree net.old (entries_of front.now.entries) }
    requires taken { IsTaken (entries_of front.now.entries) node.0 }
    requires lawful { IsLawful net.old }
    requires reduced { AreReduced net.old net.old.potentials }
    requires amount { IsAmount net.old (entries_of front.now.entries) node.0 amount }
    ensures { (seed : ℕ) × (by_at (entries_of front.now.entries) seed ≡ None) × IsPushed net.old net.new (entries_of front.now.entries) node.0 amount seed }
{
    let mut at = node;
    'way: while let Some(arc) = arc_to(front, at) {
        let from = net.look(arc, steps).from;
        net.push(arc, amount);
        at = from;
    }
}
