ghost use Rattle.std.specs.Prelude.{◌≡◌};
ghost use Rattle.bud_flow.specs.Sums.{number_at};

use bud_base::{End, Item, NodeId, Start};
use std::alloc::{AllocError, Global};

/// Which delay of items a sweep goes by.
#[derive(Clone, Copy, Debug, PartialEq, Eq)]
pub enum Delays {
    Least,
    Greatest,
}

/// No start is earlier, in ps.
const EARLIEST: i64 = -2_000_000_000_000;

/// No end is later, in ps.
const LATEST: i64 = 2_000_000_000_000;

/// The time of a node, and 0 for a node that has none.
pub fn time_of(times: &[i64], node: NodeId) -> i64
    ensures { result ≡ number_at times.now node.0 }
{
    match times.get(node.0 as usize) {
        Some(time) => *time,
        None => 0,
    }
}

/// Sets the time of a node that has one.
pub fn set_time(times: &mut [i64], node: NodeId, time: i64) {
    let place = node.0 as usize;
    if place < times.len() {
        times[place] = time;
    }
}

/// Raises the time of a node to another, unless it is later.
fn raise(times: &mut [i64], node: NodeId, time: i64) {
    if time_of(times, node) < time {
        set_time(times, node, time);
    }
}

/// Lowers the time of a node to another, unless it is earlier.
fn lower(times: &mut [i64], node: NodeId, time: i64) {
    if time < time_of(times, node) {
        set_time(times, node, time);
    }
}

fn delay_of(item: &Item, delays: Delays) -> i64 {
    match delays {
        Delays::Least => item.least,
        Delays::Greatest => item.greatest,
    }
}

/// Raises times along items, one after another.
pub fn raise_along(times: &mut [i64], items: &[Item], delays: Delays) {
    for item in items {
        let time = time_of(times, item.from).wrapping_add(delay_of(item, delays));
        raise(times, item.to, time);
    }
}

/// Lowers times against items, the last first.
fn lower_along(times: &mut [i64], items: &[Item], delays: Delays) {
    for item in items.iter().rev() {
        let time = time_of(times, item.to).wrapping_sub(delay_of(item, delays));
        lower(times, item.from, time);
    }
}

/// When paths from the starts can arrive at the earliest, over items in the order of their nodes.
pub fn earliest(
    alloc: Global,
    nodes: usize,
    starts: &[Start],
    items: &[Item],
    delays: Delays,
) -> Result<Vec<i64>, AllocError> {
    let mut times = vec![in alloc; EARLIEST; nodes]?;
    for start in starts {
        raise(&mut times, start.node, start.offset);
    }
    raise_along(&mut times, items, delays);
    Ok(times)
}

/// When they have to arrive at the latest for the ends.
pub fn latest(
    alloc: Global,
    nodes: usize,
    ends: &[End],
    items: &[Item],
    delays: Delays,
) -> Result<Vec<i64>, AllocError> {
    let mut times = vec![in alloc; LATEST; nodes]?;
    for end in ends {
        lower(&mut times, end.node, end.require);
    }
    lower_along(&mut times, items, delays);
    Ok(times)
}
