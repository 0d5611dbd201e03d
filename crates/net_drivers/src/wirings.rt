ghost use Rattle.std.specs.Prelude.{◌≡◌, ◌≤◌, ◌<◌, ◌++◌, ◌^◌, ℕ, None, length, All, OnOk, IfOk};
ghost use Rattle.std.specs.List.{filter_map};
ghost use Rattle.module_nets.specs.Nets.{all_bits, module_called};
ghost use Rattle.net_drivers.specs.WiringAnswers.{IsWiring};
ghost use Rattle.net_drivers.specs.Drivers.{child_loads, driver, drives, instance_loads, local_wires};
ghost use Rattle.net_drivers.specs.Joints.{directions, own_joints};
ghost use Rattle.net_drivers.specs.Joins.{AreJoinedIn, IsSmallChild, instance_at};
ghost use Rattle.net_drivers.specs.Phases.{IsClean};
ghost use Rattle.net_drivers.specs.Covers.{ends_at};
ghost use Rattle.net_drivers.specs.Slots.{slot_at};
ghost use Rattle.net_drivers.specs.Wirings.{AreDrivers, IsJudged, IsStaged, load_wire};
ghost use Rattle.net_drivers.specs.declared.slots.Slot.TheVariants.{Free};

use crate::chains::driving_pins;
use crate::covers::{Ends, first_twice};
use crate::drives::{cover_assigns, drive_assigns, drive_instances};
use crate::joins::{InstanceJoints, own_joints};
use crate::pins::{LocalPin, LocalWire};
use crate::slots::{Joint, Slot, drive_constants, drive_pins};
use crate::wires::put_wires;
use bud_syntax::Dir;
use module_nets::{Library, NetTable};
use std::alloc::{AllocError, Global};

/// The wires of a module, or the number of the first net bit that more than one thing drives.
#[derive(Debug, Drop)]
pub enum Wiring {
    Twice(u32),
    Wired(Vec<LocalWire>),
}

/// Port bits, constant nets and instances drive net bits, and all drives are counted.
fn drive_all(joints: &InstanceJoints<'_, '_>, own: &[Joint], slots: &mut [Slot], rows: &mut [Ends])
    requires joined { AreJoinedIn joints.now.library.now.modules.now joints.now.table.now.module.now joints.now.each.items }
    requires clean { IsClean joints.now.library.now.modules.now joints.now.table.now.module.now }
    requires own { own.now ≡ own_joints 0 (directions joints.now.table.now.module.now.ports) }
    requires slots { length slots.old ≡ length (all_bits joints.now.table.now.module.now) }
    requires rows { length rows.old ≡ length slots.old }
    ensures { IsStaged joints.now.library.now.modules.now joints.now.table.now.module.now slots.old slots.new rows.old rows.new }
{
    let nets = joints.table.module.nets.as_slice();
    let assigns = joints.table.module.assigns.as_slice();
    drive_pins(slots, rows, Dir::Input, None, own);
    drive_constants(slots, rows, own.len(), nets);
    drive_instances(joints, slots, rows);
    cover_assigns(joints.table, assigns, rows);
}

/// All but the assigns drive their bits; the number of the first bit that is driven twice, the assigns counted.
fn judge_rows(
    joints: &InstanceJoints<'_, '_>,
    own: &[Joint],
    slots: &mut [Slot],
    rows: &mut [Ends],
) -> Option<u32>
    requires joined { AreJoinedIn joints.now.library.now.modules.now joints.now.table.now.module.now joints.now.each.items }
    requires clean { IsClean joints.now.library.now.modules.now joints.now.table.now.module.now }
    requires own { own.now ≡ own_joints 0 (directions joints.now.table.now.module.now.ports) }
    requires slots { length slots.old ≡ length (all_bits joints.now.table.now.module.now) }
    requires rows { length rows.old ≡ length slots.old }
    requires none { (k : ℕ) → ends_at rows.old k ≡ record { last = 0; second = 0 } }
    ensures { IsJudged joints.now.library.now.modules.now joints.now.table.now.module.now slots.old slots.new result }
{
    drive_all(joints, own, slots, rows);
    first_twice(rows)
}

/// All but the assigns drive their bits; the number of the first bit that is driven twice, the assigns counted.
fn judge(
    alloc: Global,
    joints: &InstanceJoints<'_, '_>,
    own: &[Joint],
    slots: &mut [Slot],
) -> Result<Option<u32>, AllocError>
    requires joined { AreJoinedIn joints.now.library.now.modules.now joints.now.table.now.module.now joints.now.each.items }
    requires clean { IsClean joints.now.library.now.modules.now joints.now.table.now.module.now }
    requires own { own.now ≡ own_joints 0 (directions joints.now.table.now.module.now.ports) }
    requires slots { length slots.old ≡ length (all_bits joints.now.table.now.module.now) }
    ensures { IfOk result (IsJudged joints.now.library.now.modules.now joints.now.table.now.module.now slots.old slots.new) }
{
    let mut rows = vec![in alloc; Ends { last: 0, second: 0 }; slots.len()]?;
    Ok(judge_rows(joints, own, slots, rows.as_mut_slice()))
}

/// Appends the wires to the input ports of an instance.
fn put_child_wires(
    joints: &InstanceJoints<'_, '_>,
    number: usize,
    pins: &[Option<LocalPin>],
    wires: &mut Vec<LocalWire>,
) -> Result<(), AllocError>
    requires joined { AreJoinedIn joints.now.library.now.modules.now joints.now.table.now.module.now joints.now.each.items }
    requires within { number < length joints.now.table.now.module.now.instances }
    requires number { number < 2147483648 }
    requires child { IsSmallChild (module_called joints.now.library.now.modules.now (instance_at joints.now.table.now.module.now.instances number).«module») }
    requires size { length pins.now ≡ length (all_bits joints.now.table.now.module.now) }
    requires pins { AreDrivers (length (all_bits joints.now.table.now.module.now)) (all_bits joints.now.table.now.module.now) (driver 4194304 (drives joints.now.library.now.modules.now joints.now.table.now.module.now)) pins.now }
    ensures { OnOk result (wires.new.items ≡ wires.old.items ++ filter_map (load_wire (driver 4194304 (drives joints.now.library.now.modules.now joints.now.table.now.module.now))) (child_loads joints.now.table.now.module.now number (instance_at joints.now.table.now.module.now.instances number) (module_called joints.now.library.now.modules.now (instance_at joints.now.table.now.module.now.instances number).«module»))) }
{
    let pairs = joints.of(number);
    put_wires(wires, pins, Dir::Input, Some(number as u32), pairs)?;
    Ok(())
}

/// Appends the wires to the input ports of instances.
fn put_instance_wires(
    joints: &InstanceJoints<'_, '_>,
    pins: &[Option<LocalPin>],
    wires: &mut Vec<LocalWire>,
) -> Result<(), AllocError>
    requires joined { AreJoinedIn joints.now.library.now.modules.now joints.now.table.now.module.now joints.now.each.items }
    requires instances { length joints.now.table.now.module.now.instances < 2147483648 }
    requires children { All (λ i. IsSmallChild (module_called joints.now.library.now.modules.now i.«module»)) joints.now.table.now.module.now.instances }
    requires size { length pins.now ≡ length (all_bits joints.now.table.now.module.now) }
    requires pins { AreDrivers (length (all_bits joints.now.table.now.module.now)) (all_bits joints.now.table.now.module.now) (driver 4194304 (drives joints.now.library.now.modules.now joints.now.table.now.module.now)) pins.now }
    ensures { OnOk result (wires.new.items ≡ wires.old.items ++ filter_map (load_wire (driver 4194304 (drives joints.now.library.now.modules.now joints.now.table.now.module.now))) (instance_loads joints.now.library.now.modules.now joints.now.table.now.module.now 0 joints.now.table.now.module.now.instances)) }
{
    for number in 0..joints.count() {
        put_child_wires(joints, number, pins, wires)?;
    }
    Ok(())
}

/// The wires of a module, from the pins that drive its net bits.
fn wires_of(
    alloc: Global,
    joints: &InstanceJoints<'_, '_>,
    own: &[Joint],
    pins: &[Option<LocalPin>],
) -> Result<Vec<LocalWire>, AllocError>
    requires joined { AreJoinedIn joints.now.library.now.modules.now joints.now.table.now.module.now joints.now.each.items }
    requires clean { IsClean joints.now.library.now.modules.now joints.now.table.now.module.now }
    requires own { own.now ≡ own_joints 0 (directions joints.now.table.now.module.now.ports) }
    requires size { length pins.now ≡ length (all_bits joints.now.table.now.module.now) }
    requires pins { AreDrivers (length (all_bits joints.now.table.now.module.now)) (all_bits joints.now.table.now.module.now) (driver 4194304 (drives joints.now.library.now.modules.now joints.now.table.now.module.now)) pins.now }
    ensures { IfOk result (λ wires. wires.items ≡ local_wires 4194304 joints.now.library.now.modules.now joints.now.table.now.module.now) }
{
    let mut wires = Vec::new(alloc);
    put_wires(&mut wires, pins, Dir::Output, None, own)?;
    put_instance_wires(joints, pins, &mut wires)?;
    Ok(wires)
}

/// The wires of a module, or the number of the first net bit that more than one thing drives.
fn wire(
    alloc: Global,
    joints: &InstanceJoints<'_, '_>,
    own: &[Joint],
    slots: &mut [Slot],
) -> Result<Wiring, AllocError>
    requires joined { AreJoinedIn joints.now.library.now.modules.now joints.now.table.now.module.now joints.now.each.items }
    requires clean { IsClean joints.now.library.now.modules.now joints.now.table.now.module.now }
    requires own { own.now ≡ own_joints 0 (directions joints.now.table.now.module.now.ports) }
    requires slots { length slots.old ≡ length (all_bits joints.now.table.now.module.now) }
    requires free { (k : ℕ) → slot_at slots.old k ≡ Free }
    ensures { IfOk result (IsWiring joints.now.library.now.modules.now joints.now.table.now.module.now) }
{
    let assigns = joints.table.module.assigns.as_slice();
    if let Some(bit) = judge(alloc, joints, own, slots)? {
        return Ok(Wiring::Twice(bit));
    }
    drive_assigns(alloc, joints.table, assigns, slots)?;
    let pins = driving_pins(alloc, slots)?;
    let wires = wires_of(alloc, joints, own, pins.as_slice())?;
    Ok(Wiring::Wired(wires))
}

/// The wires of a module that isn't refused, from the driver of each net bit to what hangs on it, or the number of the
/// first net bit that more than one thing drives.
///
/// It takes time linear in the text of the module, its net bits and the port bits of its instances. `number` is the module's in the
/// library; the answer is the same with another one, though it takes longer.
pub fn wire_module(
    alloc: Global,
    library: &Library<'_>,
    table: &NetTable<'_>,
    number: usize,
) -> Result<Wiring, AllocError>
    requires clean { IsClean library.now.modules.now table.now.module.now }
    ensures { IfOk result (IsWiring library.now.modules.now table.now.module.now) }
{
    let joints = InstanceJoints::new(alloc, library, table, number)?;
    let own = own_joints(alloc, table.module.ports.as_slice())?;
    let mut slots = vec![in alloc; Slot::Free; table.bits]?;
    let wired = wire(alloc, &joints, own.as_slice(), slots.as_mut_slice())?;
    Ok(wired)
}
