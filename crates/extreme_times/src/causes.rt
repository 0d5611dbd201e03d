ghost use Rattle.std.specs.Prelude.{◌≡◌, ℕ, ◌<◌, ◌+ℤ◌, length, IsTrue};
ghost use Rattle.bud_base.specs.Paths.{item_at};
ghost use Rattle.bud_flow.specs.Sums.{number_at};
ghost use Rattle.extreme_times.specs.Causes.{StartsAt, EndsAt, ComesBy, GoesBy, IsTight, HasEarlyCause, HasLateCause};

use crate::sweeps::{Cause, time_of};
use bud_base::{Item, NodeId, Problem};

/// Whether the times of an item's nodes are its least delay apart.
fn is_tight(times: &[i64], item: &Item) -> bool
    ensures { IsTrue result → (number_at times.now item.now.from.0 +ℤ item.now.least) ≡ number_at times.now item.now.to.0 }
{
    i128::from(time_of(times, item.from)) + i128::from(item.least)
        == i128::from(time_of(times, item.to))
}

/// Whether a start of this number gives the node its time.
fn starts_at(problem: &Problem, times: &[i64], node: NodeId, number: usize) -> bool
    ensures { IsTrue result → StartsAt problem.now times.now node.0 }
{
    let starts = problem.starts.as_slice();
    number < starts.len()
        && starts[number].node == node
        && starts[number].offset == time_of(times, node)
}

/// Whether an end of this number does.
fn ends_at(problem: &Problem, times: &[i64], node: NodeId, number: usize) -> bool
    ensures { IsTrue result → EndsAt problem.now times.now node.0 }
{
    let ends = problem.ends.as_slice();
    number < ends.len() && ends[number].node == node && ends[number].require == time_of(times, node)
}

/// Whether an item of this number leads to the node and gives it its time.
fn comes_by(problem: &Problem, times: &[i64], node: NodeId, number: usize) -> bool
    ensures { IsTrue result → ComesBy problem.now times.now node.0 }
{
    let items = problem.items.as_slice();
    number < items.len() && items[number].to == node && is_tight(times, &items[number])
}

/// Whether an item of this number leaves the node and gives it its time.
fn goes_by(problem: &Problem, times: &[i64], node: NodeId, number: usize) -> bool
    ensures { IsTrue result → GoesBy problem.now times.now node.0 }
{
    let items = problem.items.as_slice();
    number < items.len() && items[number].from == node && is_tight(times, &items[number])
}

/// Whether this is a cause of the node's earliest time.
fn is_early_cause(problem: &Problem, times: &[i64], node: NodeId, cause: Cause) -> bool
    ensures { IsTrue result → HasEarlyCause problem.now times.now node.0 }
{
    match cause {
        Cause::Port(number) => starts_at(problem, times, node, number),
        Cause::Item(number) => comes_by(problem, times, node, number),
    }
}

/// Whether this is a cause of the node's latest time.
fn is_late_cause(problem: &Problem, times: &[i64], node: NodeId, cause: Cause) -> bool
    ensures { IsTrue result → HasLateCause problem.now times.now node.0 }
{
    match cause {
        Cause::Port(number) => ends_at(problem, times, node, number),
        Cause::Item(number) => goes_by(problem, times, node, number),
    }
}

/// Whether each earliest time has its cause.
pub fn have_early_causes(problem: &Problem, times: &[i64], causes: &[Cause]) -> bool
    ensures { IsTrue result → (n : ℕ) → n < problem.now.nodes → HasEarlyCause problem.now times.now n }
{
    for number in 0..problem.nodes {
        let Some(cause) = causes.get(number as usize) else {
            return false;
        };
        if !is_early_cause(problem, times, NodeId(number), *cause) {
            return false;
        }
    }
    true
}

/// Whether each latest time has its cause.
pub fn have_late_causes(problem: &Problem, times: &[i64], causes: &[Cause]) -> bool
    ensures { IsTrue result → (n : ℕ) → n < problem.now.nodes → HasLateCause problem.now times.now n }
{
    for number in 0..problem.nodes {
        let Some(cause) = causes.get(number as usize) else {
            return false;
        };
        if !is_late_cause(problem, times, NodeId(number), *cause) {
            return false;
        }
    }
    true
}
