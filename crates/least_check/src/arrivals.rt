ghost use Rattle.std.specs.Prelude.{◌≡◌, ℕ, ◌+◌, ◌<◌, ◌≤◌, Some, None, length, slice_set};
ghost use Rattle.bud_base.specs.Leaving.{AreLinks};
ghost use Rattle.bud_base.specs.Orders.{IsOrder};
ghost use Rattle.bud_base.specs.Soundness.{IsSound};
ghost use Rattle.least_check.specs.Arrivals.{arrival_at, later, AreOfStarts, IsSweep, IsSwept};

use bud_base::{ItemId, Links, NodeId, Problem};

/// What makes the latest signal arrive at a node: a start there, by its number, or an item that leads there.
#[derive(Clone, Copy, Debug)]
pub enum Cause {
    OfStart(u32),
    OfItem(ItemId),
}

/// When the latest signal arrives at a node, in ps, and what makes it arrive.
#[derive(Clone, Copy, Debug)]
pub struct Arrival {
    pub time: i64,
    pub cause: Cause,
}

/// Keeps the later of the node's arrival and this one.
fn arrive(arrivals: &mut [Option<Arrival>], node: NodeId, arrival: Arrival)
    requires { node.0 < length arrivals.old }
    ensures { arrivals.new ≡ slice_set arrivals.old node.0 (Some (later (arrival_at arrivals.old node.0) arrival)) }
{
    let place = &mut arrivals[node.0 as usize];
    match place {
        Some(held) if arrival.time <= held.time => {}
        _ => *place = Some(arrival),
    }
}

/// Takes all arrivals away.
fn clear(arrivals: &mut [Option<Arrival>])
    ensures none { (n : ℕ) → arrival_at arrivals.new n ≡ None }
{
    for place in arrivals.iter_mut() {
        *place = None;
    }
}

/// Leaves the arrivals that the starts alone make.
pub fn begin(problem: &Problem, arrivals: &mut [Option<Arrival>])
    requires sound { IsSound problem.now }
    requires room { problem.now.nodes ≤ length arrivals.old }
    ensures begun { AreOfStarts problem.now (length problem.now.starts) arrivals.new }
{
    clear(arrivals);
    for (number, start) in problem.starts.as_slice().iter().enumerate() {
        let arrival = Arrival {
            time: start.offset,
            cause: Cause::OfStart(number as u32),
        };
        arrive(arrivals, start.node, arrival);
    }
}

/// Carries the arrival at the node of this place on over the items that leave the node.
fn carry(
    problem: &Problem,
    order: &[NodeId],
    place: usize,
    links: &Links,
    arrivals: &mut [Option<Arrival>],
)
    requires sound { IsSound problem.now }
    requires place { place < length order.now }
    requires links { AreLinks problem.now.items links.now }
    requires heads { problem.now.nodes ≤ length links.now.first }
    requires swept { IsSweep problem.now order.now place arrivals.old }
    ensures swept { IsSweep problem.now order.now (place + 1) arrivals.new }
{
    let items = problem.items.as_slice();
    let node = order[place];
    let Some(arrival) = arrivals[node.0 as usize] else {
        return;
    };
    let mut next = links.first(node);
    while let Some(number) = next {
        let item = items[number.0 as usize];
        let onward = Arrival {
            time: arrival.time + item.least,
            cause: Cause::OfItem(number),
        };
        arrive(arrivals, item.to, onward);
        next = links.next(number);
    }
}

/// Carries the arrivals at the starts on over all items, node by node in the order.
pub fn sweep(problem: &Problem, order: &[NodeId], links: &Links, arrivals: &mut [Option<Arrival>])
    requires sound { IsSound problem.now }
    requires order { IsOrder problem.now.nodes problem.now.items order.now }
    requires links { AreLinks problem.now.items links.now }
    requires heads { problem.now.nodes ≤ length links.now.first }
    requires begun { AreOfStarts problem.now (length problem.now.starts) arrivals.old }
    ensures swept { IsSwept problem.now arrivals.new }
{
    for place in 0..order.len() {
        carry(problem, order, place, links, arrivals);
    }
}
