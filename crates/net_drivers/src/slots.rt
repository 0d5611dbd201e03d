ghost use Rattle.std.specs.Prelude.{◌≡◌, ◌+◌, ◌-◌, ◌<◌, ◌≤◌, ◌^◌, length, true, All};
ghost use Rattle.net_drivers.specs.Slots.{filled, counted, put, pin_puts, constant_bits, net_puts, constant_puts, put_if, assigned_puts, widths, is_dir, IsBelow, BitsWithin};
ghost use Rattle.net_drivers.specs.Covers.{covered};
ghost use Rattle.module_nets.specs.Numbers.{range_width};
ghost use Rattle.net_drivers.specs.declared.slots.Slot.TheVariants.{Assigned};

use crate::covers::{Ends, cover};
use crate::pins::LocalPin;
use bud_syntax::{Dir, NetDecl};
use module_nets::range_width;

/// What drives a net bit.
#[derive(Clone, Copy, Debug, PartialEq, Eq)]
pub enum Slot {
    /// Nothing that is known yet.
    Free,
    Pin(LocalPin),
    /// It is a constant net.
    Constant,
    /// By an assign what drives the bit of this number, or a constant.
    Assigned(Option<u32>),
}

/// A port bit's direction, and the number of the net bit that it is joined to, if it is joined to one.
#[derive(Clone, Copy, Debug, PartialEq, Eq)]
pub struct Joint {
    pub dir: Dir,
    pub bit: Option<u32>,
}

/// Whether the direction is the one that is meant.
pub fn is_dir(meant: Dir, dir: Dir) -> bool
    ensures { result ≡ is_dir meant dir }
{
    match meant {
        Dir::Input => matches!(dir, Dir::Input),
        Dir::Output => matches!(dir, Dir::Output),
        Dir::Inout => matches!(dir, Dir::Inout),
    }
}

/// Says what drives the bit, unless something does already.
pub fn put(slots: &mut [Slot], bit: u32, slot: Slot)
    requires { bit < length slots.old }
    ensures { slots.new ≡ put bit slot slots.old }
{
    let place = &mut slots[bit as usize];
    if matches!(*place, Slot::Free) {
        *place = slot;
    }
}

/// Says what drives the bit, and counts it.
fn drive(slots: &mut [Slot], rows: &mut [Ends], bit: u32, slot: Slot)
    requires slots { bit < length slots.old }
    requires rows { bit < length rows.old }
    requires small { length rows.old < 2 ^ 32 }
    ensures slots { slots.new ≡ put bit slot slots.old }
    ensures rows { rows.new ≡ covered bit (bit + 1) rows.old }
{
    put(slots, bit, slot);
    cover(rows, bit, bit + 1);
}

/// The port bits of one direction, of the module itself or of an instance, drive what they are joined to.
pub fn drive_pins(
    slots: &mut [Slot],
    rows: &mut [Ends],
    meant: Dir,
    instance: Option<u32>,
    joints: &[Joint],
)
    requires bits { BitsWithin (length slots.old) joints.now }
    requires rows { length rows.old ≡ length slots.old }
    requires small { length slots.old < 2 ^ 32 }
    requires joints { length joints.now < 2 ^ 32 }
    ensures slots { slots.new ≡ filled (pin_puts meant instance 0 joints.now) slots.old }
    ensures rows { rows.new ≡ counted (pin_puts meant instance 0 joints.now) rows.old }
{
    for (k, joint) in joints.iter().enumerate() {
        if is_dir(meant, joint.dir) {
            if let Some(bit) = joint.bit {
                let pin = LocalPin {
                    instance,
                    bit: k as u32,
                };
                drive(slots, rows, bit, Slot::Pin(pin));
            }
        }
    }
}

/// The bits from `first` to in front of `end` are constant.
fn drive_constant(slots: &mut [Slot], rows: &mut [Ends], first: u32, end: u32)
    requires order { first ≤ end }
    requires bits { end ≤ length slots.old }
    requires rows { length rows.old ≡ length slots.old }
    requires small { length slots.old < 2 ^ 32 }
    ensures slots { slots.new ≡ filled (constant_bits first (end - first)) slots.old }
    ensures rows { rows.new ≡ counted (constant_bits first (end - first)) rows.old }
{
    for bit in first..end {
        drive(slots, rows, bit, Slot::Constant);
    }
}

/// The bits of a constant net, which begins at a bit, are constant.
fn drive_net(slots: &mut [Slot], rows: &mut [Ends], first: usize, net: &NetDecl)
    requires bits { first + range_width net.now.range ≤ length slots.old }
    requires rows { length rows.old ≡ length slots.old }
    requires small { length slots.old < 2 ^ 32 }
    ensures slots { slots.new ≡ filled (net_puts first net.now) slots.old }
    ensures rows { rows.new ≡ counted (net_puts first net.now) rows.old }
{
    if net.constant {
        let end = first + range_width(net.range);
        drive_constant(slots, rows, first as u32, end as u32);
    }
}

/// The bits of the constant nets are constant, the first net beginning at a bit.
pub fn drive_constants(slots: &mut [Slot], rows: &mut [Ends], first: usize, nets: &[NetDecl])
    requires bits { first + widths nets.now ≤ length slots.old }
    requires rows { length rows.old ≡ length slots.old }
    requires small { length slots.old < 2 ^ 32 }
    ensures slots { slots.new ≡ filled (constant_puts first nets.now) slots.old }
    ensures rows { rows.new ≡ counted (constant_puts first nets.now) rows.old }
{
    let mut first = first;
    for net in nets {
        drive_net(slots, rows, first, net);
        first += range_width(net.range);
    }
}

/// A bit of a left side is driven by that of the right side.
fn put_pair(slots: &mut [Slot], left: Option<u32>, right: Option<u32>)
    requires { IsBelow (length slots.old) left }
    ensures { slots.new ≡ filled (put_if true left (Assigned right)) slots.old }
{
    if let Some(bit) = left {
        put(slots, bit, Slot::Assigned(right));
    }
}

/// The bits of a left side are driven by those of the right side.
pub fn put_assigned(slots: &mut [Slot], lefts: &[Option<u32>], rights: &[Option<u32>])
    requires { All (IsBelow (length slots.old)) lefts.now }
    ensures { slots.new ≡ filled (assigned_puts lefts.now rights.now) slots.old }
{
    for k in 0..lefts.len().min(rights.len()) {
        put_pair(slots, lefts[k], rights[k]);
    }
}
