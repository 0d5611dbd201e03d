use crate::sweeps::{Delays, earliest, latest, raise_along, set_time, time_of};
use bud_base::{Item, NodeId, Problem};
use std::alloc::{AllocError, Global};

/// An item's number, behind the place of the node that it leaves.
#[derive(Clone, Copy, Debug, PartialEq, Eq, PartialOrd, Ord)]
struct Rank {
    place: usize,
    item: usize,
}

/// The parts in which a slack is shared.
const PARTS: i64 = 1024;

/// The place of each node in the order.
fn places_of(alloc: Global, nodes: usize, order: &[NodeId]) -> Result<Vec<usize>, AllocError> {
    let mut places = vec![in alloc; 0usize; nodes]?;
    for place in 0..order.len() {
        let node = order[place].0 as usize;
        if node < places.len() {
            places[node] = place;
        }
    }
    Ok(places)
}

/// The items' ranks.
fn ranks_of(alloc: Global, items: &[Item], places: &[usize]) -> Result<Vec<Rank>, AllocError> {
    let mut ranks = Vec::with_capacity(alloc, items.len())?;
    for item in 0..items.len() {
        let place = match places.get(items[item].from.0 as usize) {
            Some(place) => *place,
            None => 0,
        };
        ranks.push(Rank { place, item })?;
    }
    Ok(ranks)
}

/// The items in the order of the nodes that they leave.
fn in_order(
    alloc: Global,
    items: &[Item],
    nodes: usize,
    order: &[NodeId],
) -> Result<Vec<Item>, AllocError> {
    let places = places_of(alloc, nodes, order)?;
    let mut ranks = ranks_of(alloc, items, &places)?;
    ranks.sort_unstable();
    let mut sorted = Vec::with_capacity(alloc, items.len())?;
    for rank in ranks.as_slice() {
        if let Some(item) = items.get(rank.item) {
            sorted.push(*item)?;
        }
    }
    Ok(sorted)
}

/// The time at which a node has as much of its slack before it as the paths to it can use, of what the paths to it and from it can use.
fn share(early: i64, late: i64, before: i64, behind: i64) -> i64 {
    let whole = before.wrapping_add(behind);
    if before <= 0 || whole <= 0 || late <= early {
        return early;
    }
    let part = before.wrapping_mul(PARTS) / whole;
    let time = early.wrapping_add(late.wrapping_sub(early).wrapping_mul(part) / PARTS);
    if time < early {
        early
    } else if late < time {
        late
    } else {
        time
    }
}

/// Times that share the slack of each node, raised until they suit the items; nothing is claimed of them.
pub fn guess(
    alloc: Global,
    problem: &Problem,
    order: &[NodeId],
    least: &[i64],
) -> Result<Vec<i64>, AllocError> {
    let nodes = problem.nodes as usize + 1;
    let starts = problem.starts.as_slice();
    let ends = problem.ends.as_slice();
    let items = in_order(alloc, problem.items.as_slice(), nodes, order)?;
    let late = latest(alloc, nodes, ends, &items, Delays::Least)?;
    let early_greatest = earliest(alloc, nodes, starts, &items, Delays::Greatest)?;
    let late_greatest = latest(alloc, nodes, ends, &items, Delays::Greatest)?;
    let mut times = vec![in alloc; 0i64; nodes]?;
    for number in 0..problem.nodes {
        let node = NodeId(number);
        let early = time_of(least, node);
        let before = time_of(&early_greatest, node).wrapping_sub(early);
        let behind = time_of(&late, node).wrapping_sub(time_of(&late_greatest, node));
        set_time(
            &mut times,
            node,
            share(early, time_of(&late, node), before, behind),
        );
    }
    raise_along(&mut times, &items, Delays::Least);
    Ok(times)
}
