ghost use Rattle.std.specs.Prelude.{◌≡◌, length, IsTrue, IfOk};
ghost use Rattle.bud_base.specs.Soundness.{IsSound};
ghost use Rattle.block_theory.specs.BlockValues.{AreExtremes};
ghost use Rattle.extreme_times.specs.Extremes.{AreEarly, AreLate};

use crate::causes::{have_early_causes, have_late_causes};
use crate::checks::{suit_ends, suit_items, suit_starts};
use crate::orders::items_in_order;
use crate::sweeps::{Sweep, earliest, latest};
use bud_base::Problem;
use std::alloc::{AllocError, Global};

/// The earliest and the latest time of each node, in ps.
#[derive(Debug, Drop)]
pub struct Extremes {
    pub early: Vec<i64>,
    pub late: Vec<i64>,
}

/// Whether times suit the starts and items, each by a cause.
fn are_early(problem: &Problem, sweep: &Sweep) -> bool
    ensures { IsTrue result → AreEarly problem.now sweep.now.times.items }
{
    sweep.times.len() == problem.nodes as usize
        && suit_items(&sweep.times, problem.items.as_slice())
        && suit_starts(&sweep.times, problem.starts.as_slice())
        && have_early_causes(problem, &sweep.times, &sweep.causes)
}

/// Whether times suit the ends and items, each by a cause.
fn are_late(problem: &Problem, sweep: &Sweep) -> bool
    ensures { IsTrue result → AreLate problem.now sweep.now.times.items }
{
    sweep.times.len() == problem.nodes as usize
        && suit_items(&sweep.times, problem.items.as_slice())
        && suit_ends(&sweep.times, problem.ends.as_slice())
        && have_late_causes(problem, &sweep.times, &sweep.causes)
}

/// The earliest and the latest time of each node. What was found is checked; that it fails, which can't come, is answered as want of
/// memory.
pub fn extreme_times(alloc: Global, problem: &Problem) -> Result<Extremes, AllocError>
    requires { IsSound problem.now }
    ensures { IfOk result (λ x. AreExtremes problem.now x.early.items x.late.items) }
{
    let ranks = items_in_order(alloc, problem)?;
    let early = earliest(alloc, problem, &ranks)?;
    let late = latest(alloc, problem, &ranks)?;
    if are_early(problem, &early) && are_late(problem, &late) {
        Ok(Extremes {
            early: early.times,
            late: late.times,
        })
    } else {
        Err(AllocError)
    }
}
