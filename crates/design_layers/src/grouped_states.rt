ghost use Rattle.std.specs.Prelude.{◌≡◌, ◌<◌, false, map, filter, length, slice_index_or, All, IfOk};
ghost use Rattle.layer_theory.specs.LayerAnswers.{is_grouped as lists_groups};
ghost use Rattle.path_states.specs.Exploring.{PinsBelow};
ghost use Rattle.design_layers.specs.GroupMarks.{AreMarked};
ghost use Rattle.design_layers.specs.GroupedStates.{IsStatesAnswer};

use crate::group_marks::{GroupMarks, group_marks, has_groups};
use bud_base::Item;
use bud_design::{Class, Constraints};
use layer_theory::LayerFault;
use path_states::{State, StateTable, explore};
use std::alloc::{AllocError, Global};

/// The most states of classes with groups.
const MOST_STATES: usize = 8388608;

/// Whether the class lists an exception with groups.
fn is_grouped(all: &Constraints, groups: &GroupMarks, class: &Class) -> bool
    requires { AreMarked all.now.exceptions groups.now.entries }
    ensures { result ≡ lists_groups class.now.exceptions all.now }
{
    for met in class.exceptions.as_slice() {
        if has_groups(all, groups, met.number) {
            return true;
        }
    }
    false
}

/// Which classes list an exception with groups, by one look-up for each exception of each.
fn grouped_kinds(alloc: Global, all: &Constraints, kinds: &[Class]) -> Result<Vec<bool>, AllocError>
    ensures { IfOk result (λ marks. marks.items ≡ map (λ k. lists_groups k.exceptions all.now) kinds.now) }
{
    let groups = group_marks(alloc, all.exceptions.as_slice())?;
    let marks = marked_kinds(alloc, all, &groups, kinds)?;
    Ok(marks)
}

fn marked_kinds(
    alloc: Global,
    all: &Constraints,
    groups: &GroupMarks,
    kinds: &[Class],
) -> Result<Vec<bool>, AllocError>
    requires { AreMarked all.now.exceptions groups.now.entries }
    ensures { IfOk result (λ marks. marks.items ≡ map (λ k. lists_groups k.exceptions all.now) kinds.now) }
{
    let mut marks = Vec::with_capacity(alloc, kinds.len())?;
    for kind in kinds {
        marks.push(is_grouped(all, groups, kind))?;
    }
    Ok(marks)
}

/// How many states have a marked class.
fn count_marked(states: &[State], marks: &[bool]) -> usize
    requires { All (λ s. s.kind < length marks.now) states.now }
    ensures { result ≡ length (filter (λ s. slice_index_or marks.now s.kind false) states.now) }
{
    let mut count = 0;
    for state in states {
        if marks[state.kind as usize] {
            count += 1;
        }
    }
    count
}

/// The states that launches reach along arcs, where at most 8,388,608 of them have classes with groups.
pub fn states_within_limit(
    alloc: Global,
    arcs: &[Item],
    all: &Constraints,
    pins: u32,
) -> Result<StateTable, LayerFault>
    requires small { length arcs.now < 2147483648 }
    requires pins { PinsBelow pins arcs.now all.now }
    ensures { IsStatesAnswer arcs.now all.now result }
{
    let Ok(table) = explore(alloc, arcs, all, pins) else {
        return Err(LayerFault::NoMemory);
    };
    let Ok(marks) = grouped_kinds(alloc, all, table.kinds.as_slice()) else {
        return Err(LayerFault::NoMemory);
    };
    if count_marked(table.states.as_slice(), marks.as_slice()) > MOST_STATES {
        return Err(LayerFault::TooManyStates(8388609));
    }
    Ok(table)
}
