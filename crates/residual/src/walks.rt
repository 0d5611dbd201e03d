ghost use Rattle.std.specs.Prelude.{◌≡◌, ◌≢◌, ℕ, ◌+◌, ◌<◌, ◌≤◌, ◌^◌, ◌<ℤ◌, ◌≤ℤ◌, ◌⊎◌, pos, false, None, length, IsTrue, IfOk};
ghost use Rattle.bud_flow.specs.Sums.{number_at};
ghost use Rattle.residual.specs.Arcs.{arc_at, CarryAll, JoinBelow};
ghost use Rattle.residual.specs.Walks.{way_at, IsMarked, AreWays, HaveFlow, CarryOnWalk, AreTakenOff, IsWalkTaken, AreWalksTaken, IsTakenAnswer, IsOpenStart, IsCovered, LeadsOn, IsSpreading, LoseAtMost, HasWalk, AreParted, unmarked_count};

use crate::arcs::{Arc, add_at};
use bud_base::NodeId;
use std::alloc::{AllocError, Global};

/// The arc by which a node leads on to the root.
#[derive(Clone, Copy, Debug)]
pub struct Way {
    pub arc: usize,
    /// How many nodes were marked before it.
    pub place: usize,
}

/// As many nodes without mark.
pub fn no_ways(alloc: Global, nodes: usize) -> Result<Vec<Option<Way>>, AllocError>
    ensures { IfOk result (λ ways. length ways.items ≡ nodes) }
{
    vec![in alloc; None; nodes]
}

/// The way of a marked node.
fn way_from(ways: &[Option<Way>], node: NodeId) -> Way
    requires node { node.0 < length ways.now }
    requires marked { IsMarked ways.now node.0 }
    ensures { way_at ways.now node.0 ≡ Some result }
{
    match ways[node.0 as usize] {
        Some(way) => way,
        None => unreachable!(),
    }
}

/// The flow of an arc.
fn flow_in(flows: &[i128], arc: usize) -> i128
    requires { arc < length flows.now }
    ensures { result ≡ number_at flows.now arc }
{
    flows[arc]
}

/// The node that an arc leads to.
fn head_of(arcs: &[Arc], arc: usize) -> NodeId
    requires { arc < length arcs.now }
    ensures { result ≡ (arc_at arcs.now arc).to }
{
    arcs[arc].to
}

/// The smaller of two amounts.
fn smaller(one: i128, other: i128) -> i128
    ensures one { result ≤ℤ one }
    ensures other { result ≤ℤ other }
    ensures either { (result ≡ one) ⊎ (result ≡ other) }
{
    if one < other { one } else { other }
}

/// The least of an amount and the flows on the walk from a node to the root.
fn least_along(
    arcs: &[Arc],
    flows: &[i128],
    ways: &[Option<Way>],
    root: NodeId,
    node: NodeId,
    most: i128,
) -> i128
    requires sizes { length flows.now ≡ length arcs.now }
    requires joins { JoinBelow (length ways.now) arcs.now }
    requires flows { CarryAll arcs.now flows.now }
    requires ways { (first : ℕ) × ((count : ℕ) × AreWays arcs.now first root.0 ways.now count) }
    requires node { IsMarked ways.now node.0 }
    requires positive { pos 0 <ℤ most }
    requires small { most ≤ℤ pos (2 ^ 80) }
    ensures least { pos 0 ≤ℤ result }
    ensures positive { HaveFlow flows.now ways.now → pos 0 <ℤ result }
    ensures most { result ≤ℤ most }
    ensures carried { CarryOnWalk arcs.now flows.now ways.now node.0 result }
{
    let mut least = most;
    let mut at = node;
    'walk: while at.0 != root.0 {
        let way = way_from(ways, at);
        least = smaller(least, flow_in(flows, way.arc));
        at = head_of(arcs, way.arc);
    }
    least
}

/// Takes an amount off the walk from a node to the root.
fn take_along(
    arcs: &[Arc],
    flows: &mut [i128],
    ways: &[Option<Way>],
    root: NodeId,
    node: NodeId,
    amount: i128,
)
    requires sizes { length flows.old ≡ length arcs.now }
    requires joins { JoinBelow (length ways.now) arcs.now }
    requires flows { CarryAll arcs.now flows.old }
    requires ways { (first : ℕ) × ((count : ℕ) × AreWays arcs.now first root.0 ways.now count) }
    requires node { IsMarked ways.now node.0 }
    requires least { pos 0 ≤ℤ amount }
    requires small { amount ≤ℤ pos (2 ^ 80) }
    requires carried { CarryOnWalk arcs.now flows.old ways.now node.0 amount }
    ensures { AreTakenOff arcs.now root.0 flows.old flows.new ways.now node.0 amount root.0 }
{
    let mut at = node;
    'walk: while at.0 != root.0 {
        let way = way_from(ways, at);
        add_at(flows, way.arc, -amount);
        at = head_of(arcs, way.arc);
    }
}

/// Takes as much as can be taken off the walk of a start, from the root back to it.
fn take_walk(
    arcs: &[Arc],
    flows: &mut [i128],
    ways: &[Option<Way>],
    root: NodeId,
    first: usize,
    start: usize,
)
    requires sizes { length flows.old ≡ length arcs.now }
    requires joins { JoinBelow (length ways.now) arcs.now }
    requires flows { CarryAll arcs.now flows.old }
    requires ways { (count : ℕ) × AreWays arcs.now first root.0 ways.now count }
    requires root { (arc_at arcs.now start).from.0 ≡ root.0 }
    requires above { first ≤ start }
    requires below { start < length arcs.now }
    requires start { IsOpenStart arcs.now flows.old ways.now start }
    ensures { IsWalkTaken arcs.now first start ways.now flows.old flows.new }
{
    let node = head_of(arcs, start);
    let amount = least_along(arcs, flows, ways, root, node, flow_in(flows, start));
    take_along(arcs, flows, ways, root, node, amount);
    add_at(flows, start, -amount);
}

/// Whether the arc of a start has flow and leads to a marked node.
fn is_open_start(arcs: &[Arc], flows: &[i128], ways: &[Option<Way>], start: usize) -> bool
    requires sizes { length flows.now ≡ length arcs.now }
    requires joins { JoinBelow (length ways.now) arcs.now }
    requires start { start < length arcs.now }
    ensures yes { IsTrue result → IsOpenStart arcs.now flows.now ways.now start }
    ensures no { result ≡ false → pos 0 <ℤ number_at flows.now start → way_at ways.now (arc_at arcs.now start).to.0 ≡ None }
{
    if flows[start] <= 0 {
        return false;
    }
    ways[arcs[start].to.0 as usize].is_some()
}

/// Takes walks off for the starts' arcs between two numbers, and answers whether there was one.
fn take_walks(
    arcs: &[Arc],
    flows: &mut [i128],
    ways: &[Option<Way>],
    root: NodeId,
    first: usize,
    from: usize,
    to: usize,
) -> bool
    requires sizes { length flows.old ≡ length arcs.now }
    requires joins { JoinBelow (length ways.now) arcs.now }
    requires flows { CarryAll arcs.now flows.old }
    requires ways { (count : ℕ) × AreWays arcs.now first root.0 ways.now count }
    requires flow { HaveFlow flows.old ways.now }
    requires roots { (j : ℕ) → from ≤ j → j < to → (arc_at arcs.now j).from.0 ≡ root.0 }
    requires above { first ≤ from }
    requires order { from ≤ to }
    requires below { to ≤ length arcs.now }
    ensures taken { AreWalksTaken arcs.now first flows.old flows.new }
    ensures loss { LoseAtMost from to flows.old flows.new }
    ensures answer { IsTakenAnswer arcs.now ways.now from to flows.old flows.new result }
{
    let mut is_taken = false;
    for start in from..to {
        if is_open_start(arcs, flows, ways, start) {
            take_walk(arcs, flows, ways, root, first, start);
            is_taken = true;
        }
    }
    is_taken
}

/// Whether an arc has flow and leads on to the root from a node that isn't marked.
fn leads_on(arcs: &[Arc], flows: &[i128], ways: &[Option<Way>], root: NodeId, arc: usize) -> bool
    requires sizes { length flows.now ≡ length arcs.now }
    requires joins { JoinBelow (length ways.now) arcs.now }
    requires arc { arc < length arcs.now }
    ensures yes { IsTrue result → LeadsOn arcs.now flows.now root.0 ways.now arc }
    ensures no { result ≡ false → IsCovered arcs.now flows.now root.0 ways.now arc }
{
    let from = arcs[arc].from;
    let to = arcs[arc].to;
    if flows[arc] <= 0 || from.0 == root.0 || ways[from.0 as usize].is_some() {
        return false;
    }
    to.0 == root.0 || ways[to.0 as usize].is_some()
}

/// Marks nodes from which an arc with flow leads on, in one pass over the arcs from the last to number `first`.
fn spread(
    arcs: &[Arc],
    flows: &[i128],
    ways: &mut [Option<Way>],
    root: NodeId,
    first: usize,
    before: usize,
) -> usize
    requires sizes { length flows.now ≡ length arcs.now }
    requires joins { JoinBelow (length ways.old) arcs.now }
    requires first { first ≤ length arcs.now }
    requires ways { AreWays arcs.now first root.0 ways.old before }
    requires flow { HaveFlow flows.now ways.old }
    requires few { before + unmarked_count ways.old ≤ length ways.old }
    ensures spread { IsSpreading arcs.now flows.now first root.0 ways.new before result first }
    ensures few { result + unmarked_count ways.new ≡ before + unmarked_count ways.old }
    ensures size { length ways.new ≡ length ways.old }
{
    let mut place = before;
    let mut arc = arcs.len();
    'arcs: while arc > first {
        arc -= 1;
        if leads_on(arcs, flows, ways, root, arc) {
            ways[arcs[arc].from.0 as usize] = Some(Way { arc, place });
            place += 1;
        }
    }
    place
}

/// Takes all marks away.
fn clear(ways: &mut [Option<Way>])
    ensures none { (k : ℕ) → k < length ways.new → way_at ways.new k ≡ None }
    ensures size { length ways.new ≡ length ways.old }
{
    for way in ways.iter_mut() {
        *way = None;
    }
}

/// Marks every node from which arcs with flow lead to the root, and how it leads on.
fn mark(arcs: &[Arc], flows: &[i128], ways: &mut [Option<Way>], root: NodeId, first: usize)
    requires sizes { length flows.now ≡ length arcs.now }
    requires joins { JoinBelow (length ways.old) arcs.now }
    requires first { first ≤ length arcs.now }
    ensures ways { (count : ℕ) × AreWays arcs.now first root.0 ways.new count }
    ensures flow { HaveFlow flows.now ways.new }
    ensures covered { (j : ℕ) → first ≤ j → j < length arcs.now → IsCovered arcs.now flows.now root.0 ways.new j }
    ensures size { length ways.new ≡ length ways.old }
{
    clear(ways);
    let mut place = 0;
    'passes: loop {
        let before = place;
        place = spread(arcs, flows, ways, root, first, before);
        if place == before {
            return;
        }
    }
}

/// Takes walks through the root off, over arcs from number `first` on, until no arc of a start between two numbers begins one.
pub fn trim_flows(
    arcs: &[Arc],
    flows: &mut [i128],
    ways: &mut [Option<Way>],
    root: NodeId,
    first: usize,
    from: usize,
    to: usize,
)
    requires sizes { length flows.old ≡ length arcs.now }
    requires joins { JoinBelow (length ways.old) arcs.now }
    requires flows { CarryAll arcs.now flows.old }
    requires roots { (j : ℕ) → from ≤ j → j < to → (arc_at arcs.now j).from.0 ≡ root.0 }
    requires above { first ≤ from }
    requires order { from ≤ to }
    requires below { to ≤ length arcs.now }
    ensures taken { AreWalksTaken arcs.now first flows.old flows.new }
    ensures loss { LoseAtMost from to flows.old flows.new }
    ensures kept { (flows.new ≡ flows.old) ⊎ HasWalk arcs.now flows.old first root.0 from to }
    ensures parted { AreParted arcs.now flows.new first root.0 from to ways.new }
    ensures size { length ways.new ≡ length ways.old }
{
    'searches: loop {
        mark(arcs, flows, ways, root, first);
        if !take_walks(arcs, flows, ways, root, first, from, to) {
            return;
        }
    }
}
