ghost use Rattle.std.specs.Prelude.{◌≡◌, ℕ, ◌==◌, ◌*◌, ◌/◌, ◌%◌, ◌<◌, ◌+ℤ◌, ◌^◌, ◌++◌, pos, slice_set, length, map, All, IfOk};
ghost use Rattle.bud_flow.specs.Sums.{number_at};
ghost use Rattle.residual.specs.Arcs.{arc_at, residual_of, residual_at, CanCarry, limited_arc, open_arc, start_arc, end_arc, HasSmallTimes, CarryAll, JoinBelow, IsBetween, first_flow};
ghost use Rattle.residual.specs.Bounds.{IsWithin, IsSmall, AllWithin};
ghost use Rattle.residual.specs.Excesses.{excesses_after, forward, AreExcesses};

use bud_base::{End, Item, NodeId, Start};
use std::alloc::{AllocError, Global};

/// The flow at which an arc without limit is full: 2^80.
pub const FULL: i128 = 1_208_925_819_614_629_174_706_176;

/// An arc, without its flow.
#[derive(Clone, Copy, Debug, PartialEq, Eq)]
pub struct Arc {
    pub from: NodeId,
    pub to: NodeId,
    /// In ps for each unit of flow.
    pub cost: i64,
    /// The greatest flow.
    pub limit: i128,
}

/// What a residual arc is.
#[derive(Clone, Copy, Debug, PartialEq, Eq)]
pub struct Look {
    pub from: NodeId,
    pub to: NodeId,
    /// How much more flow it can take.
    pub room: i128,
    /// Its own cost, without potentials, in ps for each unit of flow.
    pub cost: i64,
}

/// What is left of the arc under a flow, or of its reverse.
pub fn look_of(arc: Arc, flow: i128, is_forward: bool) -> Look
    requires { CanCarry arc flow }
    ensures look { result ≡ residual_of arc flow is_forward }
    ensures room { IsWithin (pos (2 ^ 80)) result.room }
{
    if is_forward {
        Look {
            from: arc.from,
            to: arc.to,
            room: arc.limit - flow,
            cost: arc.cost,
        }
    } else {
        Look {
            from: arc.to,
            to: arc.from,
            room: flow,
            cost: -arc.cost,
        }
    }
}

/// The residual arc of a key.
pub fn look_at(arcs: &[Arc], flows: &[i128], key: usize) -> Look
    requires key { key < 2 * length arcs.now }
    requires sizes { length flows.now ≡ length arcs.now }
    requires flow { CanCarry (arc_at arcs.now (key / 2)) (number_at flows.now (key / 2)) }
    ensures look { result ≡ residual_at arcs.now flows.now key }
    ensures room { IsWithin (pos (2 ^ 80)) result.room }
{
    look_of(arcs[key / 2], flows[key / 2], key % 2 == 0)
}

/// The number at a place.
pub fn number_in(numbers: &[i128], place: usize) -> i128
    requires place { place < length numbers.now }
    requires within { AllWithin (pos (2 ^ 113)) numbers.now }
    ensures value { result ≡ number_at numbers.now place }
    ensures within { IsWithin (pos (2 ^ 113)) result }
{
    numbers[place]
}

/// Adds an amount to the number at a place.
pub fn add_at(numbers: &mut [i128], place: usize, amount: i128)
    requires place { place < length numbers.old }
    requires amount { IsWithin (pos (2 ^ 80)) amount }
    requires number { IsWithin (pos (2 ^ 120)) (number_at numbers.old place) }
    ensures { numbers.new ≡ slice_set numbers.old place (number_at numbers.old place +ℤ amount) }
{
    numbers[place] += amount;
}

/// Moves the excess that an amount over the arc takes from one node to another.
pub fn move_excess(excess: &mut [i128], arcs: &[Arc], arc: usize, amount: i128)
    requires arc { arc < length arcs.now }
    requires from { (arc_at arcs.now arc).from.0 < length excess.old }
    requires to { (arc_at arcs.now arc).to.0 < length excess.old }
    requires amount { IsWithin (pos (2 ^ 80)) amount }
    requires excess { AllWithin (pos (2 ^ 113)) excess.old }
    ensures { excess.new ≡ excesses_after (arc_at arcs.now arc) amount excess.old }
{
    add_at(excess, arcs[arc].to.0 as usize, amount);
    add_at(excess, arcs[arc].from.0 as usize, -amount);
}

/// Takes numbers that are 0 to the excesses of the nodes.
fn fill_excesses(excess: &mut [i128], arcs: &[Arc], flows: &[i128])
    requires sizes { length flows.now ≡ length arcs.now }
    requires few { length arcs.now < 2 ^ 32 }
    requires nodes { JoinBelow (length excess.old) arcs.now }
    requires flows { CarryAll arcs.now flows.now }
    requires zero { (v : ℕ) → number_at excess.old v ≡ pos 0 }
    ensures { AreExcesses arcs.now flows.now excess.new }
{
    for arc in 0..arcs.len() {
        move_excess(excess, arcs, arc, flows[arc]);
    }
}

/// The excesses of this many nodes, the root among them.
pub fn excesses_of(
    alloc: Global,
    nodes: usize,
    arcs: &[Arc],
    flows: &[i128],
) -> Result<Vec<i128>, AllocError>
    requires sizes { length flows.now ≡ length arcs.now }
    requires few { length arcs.now < 2 ^ 32 }
    requires nodes { JoinBelow nodes arcs.now }
    requires flows { CarryAll arcs.now flows.now }
    ensures size { IfOk result (λ excess. length excess.items ≡ nodes) }
    ensures excesses { IfOk result (λ excess. AreExcesses arcs.now flows.now excess.items) }
{
    let mut excess = vec![in alloc; 0i128; nodes]?;
    fill_excesses(&mut excess, arcs, flows);
    Ok(excess)
}

/// An amount over the residual arc of a key, as an amount over its arc.
pub fn forward_amount(key: usize, amount: i128) -> i128
    requires { IsWithin (pos (2 ^ 80)) amount }
    ensures value { result ≡ forward key amount }
    ensures within { IsWithin (pos (2 ^ 80)) result }
{
    if key % 2 == 0 { amount } else { -amount }
}

/// The arc of an item with room for its weight.
fn limited_of(item: &Item) -> Arc
    requires { HasSmallTimes item.now }
    ensures { result ≡ limited_arc item.now }
{
    Arc {
        from: item.from,
        to: item.to,
        cost: -item.greatest,
        limit: i128::from(item.weight),
    }
}

/// The arc without limit of an item.
fn open_of(item: &Item) -> Arc
    requires { HasSmallTimes item.now }
    ensures { result ≡ open_arc item.now }
{
    Arc {
        from: item.from,
        to: item.to,
        cost: -item.least,
        limit: FULL,
    }
}

/// The arc of a start, from the root.
fn start_of(root: NodeId, start: &Start) -> Arc
    requires { IsSmall start.now.offset }
    ensures { result ≡ start_arc root.0 start.now }
{
    Arc {
        from: root,
        to: start.node,
        cost: -start.offset,
        limit: FULL,
    }
}

/// The arc of an end, to the root.
fn end_of(root: NodeId, end: &End) -> Arc
    ensures { result ≡ end_arc root.0 end.now }
{
    Arc {
        from: end.node,
        to: root,
        cost: end.require,
        limit: FULL,
    }
}

/// The arcs of a problem: for each item that with room for its weight, for each item that without limit, and those of the starts and of the ends.
pub fn arcs_of(
    alloc: Global,
    root: NodeId,
    items: &[Item],
    starts: &[Start],
    ends: &[End],
) -> Result<Vec<Arc>, AllocError>
    requires items { All HasSmallTimes items.now }
    requires starts { All (λ s. IsSmall s.offset) starts.now }
    ensures { IfOk result (λ arcs. arcs.items ≡ map limited_arc items.now ++ map open_arc items.now ++ map (start_arc root.0) starts.now ++ map (end_arc root.0) ends.now) }
{
    items
        .iter()
        .map(|item| limited_of(item))
        .chain(items.iter().map(|item| open_of(item)))
        .chain(starts.iter().map(|start| start_of(root, start)))
        .chain(ends.iter().map(|end| end_of(root, end)))
        .collect(alloc)
}

/// The first flow of an item over its arc with room for its weight: all of it where the potentials of its nodes differ by less than its greatest.
fn first_flow_of(item: &Item, potentials: &[i64]) -> i128
    requires from { item.now.from.0 < length potentials.now }
    requires to { item.now.to.0 < length potentials.now }
    requires small { AllWithin (pos (2 ^ 60)) potentials.now }
    ensures { result ≡ first_flow potentials.now item.now }
{
    if potentials[item.to.0 as usize] - potentials[item.from.0 as usize] < item.greatest {
        i128::from(item.weight)
    } else {
        0
    }
}

/// The first flows of all arcs.
pub fn first_flows(
    alloc: Global,
    potentials: &[i64],
    items: &[Item],
    starts: &[Start],
    ends: &[End],
) -> Result<Vec<i128>, AllocError>
    requires items { All (IsBetween (length potentials.now)) items.now }
    requires small { AllWithin (pos (2 ^ 60)) potentials.now }
    ensures { IfOk result (λ flows. flows.items ≡ map (first_flow potentials.now) items.now ++ map (λ _. pos 0) items.now ++ map (λ _. pos 0) starts.now ++ map (λ _. pos 0) ends.now) }
{
    items
        .iter()
        .map(|item| first_flow_of(item, potentials))
        .chain(items.iter().map(|_| 0i128))
        .chain(starts.iter().map(|_| 0i128))
        .chain(ends.iter().map(|_| 0i128))
        .collect(alloc)
}
