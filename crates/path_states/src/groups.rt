ghost use Rattle.std.specs.Prelude.{◌≡◌, ◌==◌, length, IfOk};
ghost use Rattle.std.specs.List.{list_any};
ghost use Rattle.bud_design.specs.Exceptions.{has_pin};
ghost use Rattle.path_states.specs.Groups.{Marks, is_in_groups, AreOutside, AreGroups};

use bud_base::PinId;
use bud_design::{Exception, PinList};
use class_steps::GroupPins;
use std::alloc::{AllocError, Global};

/// The groups of exceptions.
#[derive(Drop)]
pub struct Groups {
    /// Which pins lie in a group, and perhaps others.
    pub marks: Vec<bool>,
    pub pins: GroupPins,
}

/// The groups of the exceptions, among so many pins.
pub fn find_groups(alloc: Global, exceptions: &[Exception], pins: u32) -> Result<Groups, AllocError>
    ensures size { IfOk result (λ groups. length groups.marks.items ≡ pins) }
    ensures groups { IfOk result (AreGroups exceptions.now) }
{
    let marks = grouped_pins(alloc, exceptions, pins)?;
    let pins = GroupPins::of(alloc, exceptions)?;
    Ok(Groups { marks, pins })
}

fn mark_pin(pin: PinId, marks: &mut [bool])
    ensures { Marks (λ v. pin.0 == v) marks.old marks.new }
{
    let place = pin.0 as usize;
    if place < marks.len() {
        marks[place] = true;
    }
}

fn mark_group(group: &PinList, marks: &mut [bool])
    ensures { Marks (has_pin group.now) marks.old marks.new }
{
    for pin in group.as_slice() {
        mark_pin(*pin, marks);
    }
}

fn mark_groups(exception: &Exception, marks: &mut [bool])
    ensures { Marks (is_in_groups exception.now) marks.old marks.new }
{
    for group in exception.groups.as_slice() {
        mark_group(group, marks);
    }
}

/// Marks those of so many pins that lie in a group of an exception, and perhaps others.
fn grouped_pins(alloc: Global, exceptions: &[Exception], pins: u32) -> Result<Vec<bool>, AllocError>
    ensures size { IfOk result (λ marks. length marks.items ≡ pins) }
    ensures outside { IfOk result (λ marks. AreOutside exceptions.now marks.items) }
{
    let mut marks = vec![in alloc; false; pins as usize]?;
    mark_exceptions(exceptions, &mut marks);
    Ok(marks)
}

fn mark_exceptions(exceptions: &[Exception], marks: &mut [bool])
    ensures { Marks (λ v. list_any (λ e. is_in_groups e v) exceptions.now) marks.old marks.new }
{
    for exception in exceptions {
        mark_groups(exception, marks);
    }
}
