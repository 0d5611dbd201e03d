ghost use Rattle.std.specs.Prelude.{◌≡◌, ◌≤◌, ◌<◌, length, All, OnOk};
ghost use Rattle.std.specs.List.{flat_map};
ghost use Rattle.module_nets.specs.Nets.{all_bits, expression_bits, module_called, piece_bits};
ghost use Rattle.net_drivers.specs.Appending.{IsFine};
ghost use Rattle.net_drivers.specs.Drivers.{assign_drives, child_drives, instance_drives};
ghost use Rattle.net_drivers.specs.Joins.{AreJoinedIn, IsSmallChild, instance_at};
ghost use Rattle.net_drivers.specs.Phases.{IsDriven, IsFilled, IsFineAssign, Counts, Stands};

use crate::covers::{Ends, cover};
use crate::joins::InstanceJoints;
use crate::numbers::put_pieces;
use crate::slots::{Slot, drive_pins, put_assigned};
use bud_syntax::{Assign, Dir, Piece};
use module_nets::NetTable;
use std::alloc::{AllocError, Global};

/// An instance drives what its output ports are joined to.
fn drive_instance(
    joints: &InstanceJoints<'_, '_>,
    number: usize,
    slots: &mut [Slot],
    rows: &mut [Ends],
)
    requires joined { AreJoinedIn joints.now.library.now.modules.now joints.now.table.now.module.now joints.now.each.items }
    requires slots { length slots.old ≡ length (all_bits joints.now.table.now.module.now) }
    requires room { length slots.old ≤ 8388608 }
    requires rows { length rows.old ≡ length slots.old }
    requires within { number < length joints.now.table.now.module.now.instances }
    requires number { number < 2147483648 }
    requires child { IsSmallChild (module_called joints.now.library.now.modules.now (instance_at joints.now.table.now.module.now.instances number).«module») }
    ensures { IsDriven (all_bits joints.now.table.now.module.now) (child_drives joints.now.table.now.module.now number (instance_at joints.now.table.now.module.now.instances number) (module_called joints.now.library.now.modules.now (instance_at joints.now.table.now.module.now.instances number).«module»)) slots.old slots.new rows.old rows.new }
{
    let pairs = joints.of(number);
    drive_pins(slots, rows, Dir::Output, Some(number as u32), pairs);
}

/// Instances drive what their output ports are joined to.
pub fn drive_instances(joints: &InstanceJoints<'_, '_>, slots: &mut [Slot], rows: &mut [Ends])
    requires joined { AreJoinedIn joints.now.library.now.modules.now joints.now.table.now.module.now joints.now.each.items }
    requires slots { length slots.old ≡ length (all_bits joints.now.table.now.module.now) }
    requires room { length slots.old ≤ 8388608 }
    requires rows { length rows.old ≡ length slots.old }
    requires instances { length joints.now.table.now.module.now.instances < 2147483648 }
    requires children { All (λ i. IsSmallChild (module_called joints.now.library.now.modules.now i.«module»)) joints.now.table.now.module.now.instances }
    ensures { IsDriven (all_bits joints.now.table.now.module.now) (instance_drives joints.now.library.now.modules.now joints.now.table.now.module.now 0 joints.now.table.now.module.now.instances) slots.old slots.new rows.old rows.new }
{
    for number in 0..joints.count() {
        drive_instance(joints, number, slots, rows);
    }
}

/// An assign drives the bits of its left side by those of its right side.
fn drive_assign(
    alloc: Global,
    table: &NetTable<'_>,
    assign: &Assign,
    slots: &mut [Slot],
) -> Result<(), AllocError>
    requires small { table.now.bits ≤ 8388608 }
    requires slots { length slots.old ≡ length (all_bits table.now.module.now) }
    requires fine { IsFineAssign table.now.module.now assign.now }
    ensures { OnOk result (IsFilled (all_bits table.now.module.now) (assign_drives table.now.module.now assign.now) slots.old slots.new) }
{
    let mut lefts = Vec::new(alloc);
    put_pieces(table, assign.left.as_slice(), usize::MAX, &mut lefts)?;
    let mut rights = Vec::new(alloc);
    put_pieces(table, assign.right.as_slice(), usize::MAX, &mut rights)?;
    put_assigned(slots, lefts.as_slice(), rights.as_slice());
    Ok(())
}

/// Assigns drive the bits of their left sides by those of their right sides.
pub fn drive_assigns(
    alloc: Global,
    table: &NetTable<'_>,
    assigns: &[Assign],
    slots: &mut [Slot],
) -> Result<(), AllocError>
    requires small { table.now.bits ≤ 8388608 }
    requires slots { length slots.old ≡ length (all_bits table.now.module.now) }
    requires fine { All (IsFineAssign table.now.module.now) assigns.now }
    ensures { OnOk result (IsFilled (all_bits table.now.module.now) (flat_map (assign_drives table.now.module.now) assigns.now) slots.old slots.new) }
{
    for assign in assigns {
        drive_assign(alloc, table, assign, slots)?;
    }
    Ok(())
}

/// Counts that something drives the bits of a piece.
fn cover_piece(table: &NetTable<'_>, piece: &Piece, rows: &mut [Ends])
    requires small { table.now.bits ≤ 8388608 }
    requires fine { IsFine table.now.module.now piece.now }
    requires rows { length rows.old ≡ length (all_bits table.now.module.now) }
    ensures { Stands (all_bits table.now.module.now) (piece_bits table.now.module.now piece.now) rows.old rows.new }
{
    if let Some(span) = table.span(piece, usize::MAX) {
        let low = span.first.min(span.last);
        let high = span.first.max(span.last);
        cover(rows, low as u32, (high + 1) as u32);
    }
}

/// Counts that something drives the bits of an expression.
fn cover_pieces(table: &NetTable<'_>, pieces: &[Piece], rows: &mut [Ends])
    requires small { table.now.bits ≤ 8388608 }
    requires fine { All (IsFine table.now.module.now) pieces.now }
    requires rows { length rows.old ≡ length (all_bits table.now.module.now) }
    ensures { Stands (all_bits table.now.module.now) (expression_bits table.now.module.now pieces.now) rows.old rows.new }
{
    for piece in pieces {
        cover_piece(table, piece, rows);
    }
}

/// Counts that assigns drive the bits of their left sides.
pub fn cover_assigns(table: &NetTable<'_>, assigns: &[Assign], rows: &mut [Ends])
    requires small { table.now.bits ≤ 8388608 }
    requires fine { All (IsFineAssign table.now.module.now) assigns.now }
    requires rows { length rows.old ≡ length (all_bits table.now.module.now) }
    ensures { Counts (all_bits table.now.module.now) (flat_map (assign_drives table.now.module.now) assigns.now) rows.old rows.new }
{
    for assign in assigns {
        cover_pieces(table, assign.left.as_slice(), rows);
    }
}
