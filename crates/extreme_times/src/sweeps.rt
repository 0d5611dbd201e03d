ghost use Rattle.std.specs.Prelude.{◌≡◌};
ghost use Rattle.bud_flow.specs.Sums.{number_at};

use crate::orders::Rank;
use bud_base::{NodeId, Problem};
use std::alloc::{AllocError, Global};

/// By what a node has its time: a start or an end at it, or an item, by their numbers.
#[derive(Clone, Copy, Debug, PartialEq, Eq)]
pub enum Cause {
    Port(usize),
    Item(usize),
}

/// Times of nodes in ps, and by what each has its own; nothing is claimed of them.
#[derive(Debug, Drop)]
pub struct Sweep {
    pub times: Vec<i64>,
    pub causes: Vec<Cause>,
}

/// The time of a node, and 0 for a node that has none.
pub fn time_of(times: &[i64], node: NodeId) -> i64
    ensures { result ≡ number_at times.now node.0 }
{
    match times.get(node.0 as usize) {
        Some(time) => *time,
        None => 0,
    }
}

/// One time for all nodes.
fn begin(alloc: Global, nodes: u32, time: i64) -> Result<Sweep, AllocError> {
    let nodes = nodes as usize;
    Ok(Sweep {
        times: vec![in alloc; time; nodes]?,
        causes: vec![in alloc; Cause::Port(0); nodes]?,
    })
}

/// Gives a node a time by a cause.
fn set(sweep: &mut Sweep, node: NodeId, time: i64, cause: Cause) {
    let place = node.0 as usize;
    if place < sweep.times.len() && place < sweep.causes.len() {
        sweep.times[place] = time;
        sweep.causes[place] = cause;
    }
}

/// Raises the time of a node, unless it is later.
fn raise(sweep: &mut Sweep, node: NodeId, time: i64, cause: Cause) {
    if time_of(&sweep.times, node) < time {
        set(sweep, node, time, cause);
    }
}

/// Lowers the time of a node, unless it is earlier.
fn lower(sweep: &mut Sweep, node: NodeId, time: i64, cause: Cause) {
    if time < time_of(&sweep.times, node) {
        set(sweep, node, time, cause);
    }
}

/// Raises times along the items, one after another.
fn raise_along(sweep: &mut Sweep, problem: &Problem, ranks: &[Rank]) {
    for rank in ranks {
        if let Some(item) = problem.items.as_slice().get(rank.item) {
            let time = time_of(&sweep.times, item.from).wrapping_add(item.least);
            raise(sweep, item.to, time, Cause::Item(rank.item));
        }
    }
}

/// Lowers times against the items, the last first.
fn lower_along(sweep: &mut Sweep, problem: &Problem, ranks: &[Rank]) {
    for rank in ranks.iter().rev() {
        if let Some(item) = problem.items.as_slice().get(rank.item) {
            let time = time_of(&sweep.times, item.to).wrapping_sub(item.least);
            lower(sweep, item.from, time, Cause::Item(rank.item));
        }
    }
}

/// When signals arrive at the nodes at the earliest, over items in the order of the nodes that they leave.
pub fn earliest(alloc: Global, problem: &Problem, ranks: &[Rank]) -> Result<Sweep, AllocError> {
    let mut sweep = begin(alloc, problem.nodes, i64::MIN)?;
    for (number, start) in problem.starts.as_slice().iter().enumerate() {
        raise(&mut sweep, start.node, start.offset, Cause::Port(number));
    }
    raise_along(&mut sweep, problem, ranks);
    Ok(sweep)
}

/// When they have to leave the nodes at the latest.
pub fn latest(alloc: Global, problem: &Problem, ranks: &[Rank]) -> Result<Sweep, AllocError> {
    let mut sweep = begin(alloc, problem.nodes, i64::MAX)?;
    for (number, end) in problem.ends.as_slice().iter().enumerate() {
        lower(&mut sweep, end.node, end.require, Cause::Port(number));
    }
    lower_along(&mut sweep, problem, ranks);
    Ok(sweep)
}
