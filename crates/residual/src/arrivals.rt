ghost use Rattle.std.specs.Prelude.{◌≡◌, ◌+◌, ◌<◌, ◌+ℤ◌, pos, length, IfOk};
ghost use Rattle.bud_base.specs.Leaving.{AreLinks};
ghost use Rattle.bud_base.specs.OrderLists.{node_room, item_room};
ghost use Rattle.bud_base.specs.Orders.{IsOrder};
ghost use Rattle.bud_base.specs.Paths.{Meets, least_of};
ghost use Rattle.bud_base.specs.Soundness.{IsSound};
ghost use Rattle.bud_flow.specs.Arrivals.{Suit};
ghost use Rattle.bud_flow.specs.Sums.{number_at};
ghost use Rattle.first_times.specs.FirstTimes.{AreFirstTimes};
ghost use Rattle.residual.specs.Bounds.{IsWithin};
ghost use Rattle.residual.specs.Sweeps.{raised, AreReached, Rise, SuitBefore, SuitStarts};

use bud_base::{Item, Links, NodeId, NodeOrder, Problem};
use first_times::first_times;
use std::alloc::{AllocError, Global};

/// No start is earlier, in ps.
const EARLIEST: i64 = -2_000_000_000_000;

/// Raises an arrival to a time, unless it is later.
fn raise(arrivals: &mut [i64], node: NodeId, time: i64)
    requires { node.0 < length arrivals.old }
    ensures { arrivals.new ≡ raised arrivals.old node.0 time }
{
    let place = node.0 as usize;
    if arrivals[place] < time {
        arrivals[place] = time;
    }
}

/// Raises the arrival at an item's end to what its beginning and its least delay ask.
fn relax(arrivals: &mut [i64], item: &Item)
    requires from { item.now.from.0 < length arrivals.old }
    requires to { item.now.to.0 < length arrivals.old }
    requires arrival { IsWithin (pos 2000000000000) (number_at arrivals.old item.now.from.0) }
    requires least { IsWithin (pos 2000000000) item.now.least }
    ensures { arrivals.new ≡ raised arrivals.old item.now.to.0 (number_at arrivals.old item.now.from.0 +ℤ item.now.least) }
{
    let time = arrivals[item.from.0 as usize] + item.least;
    raise(arrivals, item.to, time);
}

/// Relaxes the items that leave the node at a place of the order.
fn relax_leaving(
    problem: &Problem,
    links: &Links,
    order: &[NodeId],
    place: usize,
    arrivals: &mut [i64],
)
    requires sound { IsSound problem.now }
    requires meets { Meets problem.now }
    requires links { AreLinks problem.now.items links.now }
    requires room { problem.now.nodes ≡ length links.now.first }
    requires order { IsOrder problem.now.nodes problem.now.items order.now }
    requires place { place < problem.now.nodes }
    requires reached { AreReached problem.now arrivals.old }
    requires before { SuitBefore problem.now order.now arrivals.old place }
    ensures reached { AreReached problem.now arrivals.new }
    ensures rise { Rise arrivals.old arrivals.new }
    ensures before { SuitBefore problem.now order.now arrivals.new (place + 1) }
{
    let items = problem.items.as_slice();
    let mut next = links.first(order[place]);
    while let Some(item) = next {
        relax(arrivals, &items[item.0 as usize]);
        next = links.next(item);
    }
}

/// Relaxes the items of all nodes, in the order of the nodes.
fn sweep(problem: &Problem, links: &Links, order: &[NodeId], arrivals: &mut [i64])
    requires sound { IsSound problem.now }
    requires meets { Meets problem.now }
    requires links { AreLinks problem.now.items links.now }
    requires room { problem.now.nodes ≡ length links.now.first }
    requires order { IsOrder problem.now.nodes problem.now.items order.now }
    requires reached { AreReached problem.now arrivals.old }
    ensures reached { AreReached problem.now arrivals.new }
    ensures rise { Rise arrivals.old arrivals.new }
    ensures before { SuitBefore problem.now order.now arrivals.new problem.now.nodes }
{
    for place in 0..order.len() {
        relax_leaving(problem, links, order, place, arrivals);
    }
}

/// Raises the arrivals at the starts to their offsets.
fn begin(problem: &Problem, arrivals: &mut [i64])
    requires sound { IsSound problem.now }
    requires reached { AreReached problem.now arrivals.old }
    ensures reached { AreReached problem.now arrivals.new }
    ensures starts { SuitStarts problem.now arrivals.new (length problem.now.starts) }
{
    for start in problem.starts.as_slice() {
        raise(arrivals, start.node, start.offset);
    }
}

/// Raises arrivals that are early to the least that suit.
fn settle(problem: &Problem, order: &mut NodeOrder, arrivals: &mut [i64])
    requires sound { IsSound problem.now }
    requires meets { Meets problem.now }
    requires nodes { node_room order.old ≡ problem.now.nodes }
    requires items { item_room order.old ≡ length problem.now.items }
    requires reached { AreReached problem.now arrivals.old }
    ensures reached { AreReached problem.now arrivals.new }
    ensures suit { Suit problem.now (least_of problem.now) (number_at arrivals.new) }
{
    begin(problem, arrivals);
    let _ = order.find(problem.nodes, problem.items.as_slice());
    sweep(problem, order.links(), order.nodes(), arrivals);
}

/// Arrivals that are as early as any start, and 0 for the root.
fn early_arrivals(alloc: Global, problem: &Problem) -> Result<Vec<i64>, AllocError>
    requires { IsSound problem.now }
    ensures { IfOk result (λ arrivals. AreReached problem.now arrivals.items) }
{
    let nodes = problem.nodes as usize;
    let mut arrivals = vec![in alloc; EARLIEST; nodes + 1]?;
    arrivals[nodes] = 0;
    Ok(arrivals)
}

/// Arrivals with which the network of a problem that meets begins, and 0 for the root: the least, or those that share each node's slack.
pub fn first_arrivals(alloc: Global, problem: &Problem) -> Result<Vec<i64>, AllocError>
    requires sound { IsSound problem.now }
    requires meets { Meets problem.now }
    ensures { IfOk result (λ arrivals. AreFirstTimes problem.now arrivals.items) }
{
    let mut order = NodeOrder::new(alloc, problem.nodes, problem.items.len())?;
    let mut arrivals = early_arrivals(alloc, problem)?;
    settle(problem, &mut order, &mut arrivals);
    first_times(alloc, problem, order.nodes(), arrivals)
}
