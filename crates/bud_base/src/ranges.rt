ghost use Rattle.std.specs.Prelude.{◌≡◌, [], ◌∷◌, ◌<◌, length, map, find, nat_le, not};
ghost use Rattle.std.specs.List.{flat_map};
ghost use Rattle.std.specs.Option.{option_map};
ghost use Rattle.bud_base.specs.Checking.{IsRangeAnswer};
ghost use Rattle.bud_base.specs.Soundness.{IsListable, is_bounded, is_time, first_bad_node, first_bad_bounds, first_bad_time, first_passed_limit};

use crate::checks::ProblemFault;
use crate::ids::{ItemId, NodeId};
use crate::problems::{End, Item, Problem, Start};

/// Tries the ranges of node numbers, bounds and times, then the limits.
pub fn check_ranges(problem: &Problem) -> Result<(), ProblemFault>
    requires { IsListable problem.now }
    ensures { IsRangeAnswer problem.now result }
{
    if let Some(node) = bad_node(problem) {
        return Err(ProblemFault::BadNode(node));
    }
    if let Some(item) = bad_bounds(problem.items.as_slice()) {
        return Err(ProblemFault::BadBounds(item));
    }
    if let Some(node) = bad_time(problem) {
        return Err(ProblemFault::BadTime(node));
    }
    match passed_limit(problem) {
        Some(count) => Err(ProblemFault::TooLarge(count)),
        None => Ok(()),
    }
}

/// The first node number that is out of range.
fn bad_node(problem: &Problem) -> Option<u32>
    ensures { result ≡ first_bad_node problem.now }
{
    let nodes = problem.nodes;
    if let Some(node) = bad_item_node(nodes, problem.items.as_slice()) {
        return Some(node);
    }
    if let Some(node) = bad_start_node(nodes, problem.starts.as_slice()) {
        return Some(node);
    }
    bad_end_node(nodes, problem.ends.as_slice())
}

fn bad_item_node(nodes: u32, items: &[Item]) -> Option<u32>
    ensures { result ≡ find (λ n. nat_le nodes n) (flat_map (λ x. x.from.0 ∷ x.to.0 ∷ []) items.now) }
{
    for item in items {
        if nodes <= item.from.0 {
            return Some(item.from.0);
        }
        if nodes <= item.to.0 {
            return Some(item.to.0);
        }
    }
    None
}

fn bad_start_node(nodes: u32, starts: &[Start]) -> Option<u32>
    ensures { result ≡ find (λ n. nat_le nodes n) (map (λ s. s.node.0) starts.now) }
{
    for start in starts {
        if nodes <= start.node.0 {
            return Some(start.node.0);
        }
    }
    None
}

fn bad_end_node(nodes: u32, ends: &[End]) -> Option<u32>
    ensures { result ≡ find (λ n. nat_le nodes n) (map (λ e. e.node.0) ends.now) }
{
    for end in ends {
        if nodes <= end.node.0 {
            return Some(end.node.0);
        }
    }
    None
}

/// The first item whose bounds or weight are out of range.
fn bad_bounds(items: &[Item]) -> Option<ItemId>
    requires { length items.now < 2147483648 }
    ensures { result ≡ first_bad_bounds items.now }
{
    for (i, item) in items.iter().enumerate() {
        if !is_bounded(item) {
            return Some(ItemId(i as u32));
        }
    }
    None
}

fn is_bounded(item: &Item) -> bool
    ensures { result ≡ is_bounded item.now }
{
    0 <= item.least
        && item.least <= item.greatest
        && item.greatest <= 2_000_000_000
        && item.weight <= 1_048_576
}

/// The node of the first start or end whose time is out of range.
fn bad_time(problem: &Problem) -> Option<NodeId>
    ensures { result ≡ first_bad_time problem.now }
{
    if let Some(node) = bad_start_time(problem.starts.as_slice()) {
        return Some(node);
    }
    bad_end_time(problem.ends.as_slice())
}

fn bad_start_time(starts: &[Start]) -> Option<NodeId>
    ensures { result ≡ option_map (λ s. s.node) (find (λ s. not (is_time s.offset)) starts.now) }
{
    for start in starts {
        if !is_time(start.offset) {
            return Some(start.node);
        }
    }
    None
}

fn bad_end_time(ends: &[End]) -> Option<NodeId>
    ensures { result ≡ option_map (λ e. e.node) (find (λ e. not (is_time e.require)) ends.now) }
{
    for end in ends {
        if !is_time(end.require) {
            return Some(end.node);
        }
    }
    None
}

fn is_time(time: i64) -> bool
    ensures { result ≡ is_time time }
{
    -2_000_000_000_000 <= time && time <= 2_000_000_000_000
}

/// The limit that is passed first, plus 1.
fn passed_limit(problem: &Problem) -> Option<u64>
    ensures { result ≡ first_passed_limit problem.now }
{
    if problem.items.len() > 4_194_304 {
        return Some(4_194_305);
    }
    if problem.nodes > 8_388_608
        || problem.starts.len() > 8_388_608
        || problem.ends.len() > 8_388_608
    {
        return Some(8_388_609);
    }
    None
}
