ghost use Rattle.std.specs.Prelude.{IfOk};
ghost use Rattle.first_times.specs.FirstTimes.{AreFirstTimes};

use crate::checks::are_first_times;
use crate::guesses::guess;
use bud_base::{NodeId, Problem};
use std::alloc::{AllocError, Global};

/// Arrivals that suit a problem at least delays, in place of others that do: each node's slack is shared between the paths to it and from it
/// by what they can use. Where these don't suit, it answers the others.
///
/// The order is one of the nodes that every item follows, and the others are the least arrivals; else only the guess is worse.
pub fn first_times(
    alloc: Global,
    problem: &Problem,
    order: &[NodeId],
    least: Vec<i64>,
) -> Result<Vec<i64>, AllocError>
    requires { AreFirstTimes problem.now least.items }
    ensures { IfOk result (λ times. AreFirstTimes problem.now times.items) }
{
    let times = guess(alloc, problem, order, &least)?;
    if are_first_times(problem, &times) {
        Ok(times)
    } else {
        Ok(least)
    }
}
