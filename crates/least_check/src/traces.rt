ghost use Rattle.std.specs.Prelude.{◌<◌, ◌≤◌, length, drop, IsSome};
ghost use Rattle.bud_base.specs.Soundness.{IsSound};
ghost use Rattle.least_check.specs.Arrivals.{arrival_at, IsSwept};
ghost use Rattle.least_check.specs.Traces.{IsTrace};

use crate::arrivals::{Arrival, Cause};
use bud_base::{ItemId, NodeId, Problem};

/// A start's number, and the place in the buffer where the items from there begin.
#[derive(Clone, Copy, Debug)]
pub struct TracedPath {
    pub start: u32,
    pub begin: usize,
}

/// Traces the latest arrival at the node back to its start, and writes its items to the end of the buffer.
pub fn trace(
    problem: &Problem,
    arrivals: &[Option<Arrival>],
    node: NodeId,
    path: &mut [ItemId],
) -> TracedPath
    requires sound { IsSound problem.now }
    requires swept { IsSwept problem.now arrivals.now }
    requires node { node.0 < problem.now.nodes }
    requires arrival { IsSome (arrival_at arrivals.now node.0) }
    requires room { problem.now.nodes ≤ length path.old }
    ensures within { result.begin ≤ length path.new }
    ensures traced { IsTrace problem.now arrivals.now node.0 result.start (drop result.begin path.new) }
{
    let items = problem.items.as_slice();
    let mut begin = path.len();
    let mut last = arrivals[node.0 as usize].unwrap();
    loop {
        match last.cause {
            Cause::OfStart(start) => return TracedPath { start, begin },
            Cause::OfItem(item) => {
                begin -= 1;
                path[begin] = item;
                last = arrivals[items[item.0 as usize].from.0 as usize].unwrap();
            }
        }
    }
}
