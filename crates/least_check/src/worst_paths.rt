ghost use Rattle.std.specs.Prelude.{◌≤◌, length};
ghost use Rattle.bud_base.specs.Leaving.{AreLinks};
ghost use Rattle.bud_base.specs.Orders.{IsOrder};
ghost use Rattle.bud_base.specs.Soundness.{IsSound};
ghost use Rattle.least_check.specs.WorstPaths.{IsWorstPath};

use crate::arrivals::{Arrival, begin, sweep};
use crate::traces::trace;
use crate::worst_ends::worst_end;
use bud_base::{ItemId, Links, NodeId, Problem};

/// A path by the numbers of its start and end and the place in the buffer where its items begin, and its slack in ps.
#[derive(Clone, Copy, Debug)]
pub struct WorstPath {
    pub start: u32,
    pub begin: usize,
    pub end: u32,
    pub slack: i64,
}

/// Finds a path of the least slack, and writes its items to the end of the buffer.
pub fn worst_path(
    problem: &Problem,
    order: &[NodeId],
    links: &Links,
    arrivals: &mut [Option<Arrival>],
    path: &mut [ItemId],
) -> Option<WorstPath>
    requires sound { IsSound problem.now }
    requires order { IsOrder problem.now.nodes problem.now.items order.now }
    requires links { AreLinks problem.now.items links.now }
    requires heads { problem.now.nodes ≤ length links.now.first }
    requires arrivals { problem.now.nodes ≤ length arrivals.old }
    requires path { problem.now.nodes ≤ length path.old }
    ensures worst { IsWorstPath problem.now path.new result }
{
    begin(problem, arrivals);
    sweep(problem, order, links, arrivals);
    let worst = worst_end(problem, arrivals)?;
    let node = problem.ends.as_slice()[worst.end as usize].node;
    let traced = trace(problem, arrivals, node, path);
    Some(WorstPath {
        start: traced.start,
        begin: traced.begin,
        end: worst.end,
        slack: worst.slack,
    })
}
