ghost use Rattle.std.specs.Prelude.{◌≡◌, ◌<◌, ◌&&◌, not, ℕ, None, false, List, length, All, IfOk};
ghost use Rattle.std.specs.List.{list_any, range_with_len};
ghost use Rattle.bud_design.specs.Designs.{Design};
ghost use Rattle.bud_design.specs.Lists.{first_some};
ghost use Rattle.registers.specs.FaultLists.{marked_mixed, fault_at, first_mixed, marked_latch, fault_of, put_fault};
ghost use Rattle.registers.specs.Launches.{HasPinRoom};
ghost use Rattle.registers.specs.Marks.{mark_at, IsThroughWithin};
ghost use Rattle.registers.specs.RegisterMarks.{AreMarks};
ghost use Rattle.registers.specs.Registers.{register_fault};
ghost use Rattle.registers.specs.declared.entries.Setup.{Setup};

use crate::entries::Through;
use crate::faults::RegisterFault;
use crate::launches::edge_at;
use crate::register_marks::RegisterMarks;
use bud_base::PinId;
use bud_design::Pin;
use flat_design::Flat;
use std::alloc::{AllocError, Global};

/// The refusal of a clock pin without one launch edge.
fn mixed_at(marks: &RegisterMarks, pin: u32) -> Option<RegisterFault>
    requires clocks { pin < length marks.now.clocks.items }
    requires named { pin < length marks.now.named.items }
    requires edges { pin < length marks.now.edges.items }
    ensures { result ≡ marked_mixed marks.now pin }
{
    if !marks.clocks[pin as usize] {
        return None;
    }
    match edge_at(marks, pin) {
        Some(_) => None,
        None => Some(RegisterFault::MixedEdge(PinId(pin))),
    }
}

/// Puts a refusal at an instance, where there is one.
fn put(faults: &mut [Option<RegisterFault>], place: u32, fault: Option<RegisterFault>)
    requires { place < length faults.old }
    ensures { faults.new ≡ put_fault faults.old place fault }
{
    if fault.is_some() {
        faults[place as usize] = fault;
    }
}

/// Puts the first refusal of a clock pin of each instance.
fn put_mixed(pins: &[Pin], marks: &RegisterMarks, faults: &mut [Option<RegisterFault>])
    requires room { HasPinRoom marks.now (length pins.now) }
    requires few { length pins.now < 2147483648 }
    requires places { All (λ pin. pin.place < length faults.old) pins.now }
    requires none { (p : ℕ) → fault_at faults.old p ≡ None }
    ensures first { (p : ℕ) → fault_at faults.new p ≡ first_mixed pins.now marks.now 0 (length pins.now) p }
    ensures size { length faults.new ≡ length faults.old }
{
    let mut low = pins.len();
    while low > 0 {
        low -= 1;
        put(faults, pins[low].place, mixed_at(marks, low as u32));
    }
}

/// Whether the pin is a data pin.
fn is_data(marks: &RegisterMarks, pin: PinId) -> bool
    requires checked { pin.0 < length marks.now.checked.items }
    requires clocks { pin.0 < length marks.now.clocks.items }
    ensures { result ≡ (mark_at marks.now.checked.items pin.0 && not (mark_at marks.now.clocks.items pin.0)) }
{
    marks.checked[pin.0 as usize] && !marks.clocks[pin.0 as usize]
}

/// Marks the instances of which a delay leaves a data pin.
fn put_latches(pins: &[Pin], throughs: &[Through], marks: &RegisterMarks, latches: &mut [bool])
    requires room { HasPinRoom marks.now (length pins.now) }
    requires within { All (IsThroughWithin (length pins.now)) throughs.now }
    requires places { All (λ pin. pin.place < length latches.old) pins.now }
    requires none { (p : ℕ) → mark_at latches.old p ≡ false }
    ensures marks { (p : ℕ) → mark_at latches.new p ≡ list_any (marked_latch pins.now marks.now p) throughs.now }
    ensures size { length latches.new ≡ length latches.old }
{
    let mut low = throughs.len();
    while low > 0 {
        low -= 1;
        let pin = throughs[low].from;
        if is_data(marks, pin) {
            latches[pins[pin.0 as usize].place as usize] = true;
        }
    }
}

/// The first refusal, by instance.
fn first_fault(faults: &[Option<RegisterFault>], latches: &[bool]) -> Option<RegisterFault>
    requires sizes { length faults.now ≡ length latches.now }
    requires few { length faults.now < 2147483648 }
    ensures { result ≡ first_some (fault_of faults.now latches.now) (range_with_len 0 (length faults.now)) }
{
    for place in 0..faults.len() {
        if let Some(fault) = faults[place] {
            return Some(fault);
        }
        if latches[place] {
            return Some(RegisterFault::Latch(place as u32));
        }
    }
    None
}

/// The first refusal of a register, with room for one at each instance.
fn judge(
    pins: &[Pin],
    throughs: &[Through],
    marks: &RegisterMarks,
    faults: &mut [Option<RegisterFault>],
    latches: &mut [bool],
) -> Option<RegisterFault>
    requires room { HasPinRoom marks.now (length pins.now) }
    requires few_pins { length pins.now < 2147483648 }
    requires few_places { length faults.old < 2147483648 }
    requires sizes { length faults.old ≡ length latches.old }
    requires within { All (IsThroughWithin (length pins.now)) throughs.now }
    requires places { All (λ pin. pin.place < length faults.old) pins.now }
    requires none { (p : ℕ) → fault_at faults.old p ≡ None }
    requires quiet { (p : ℕ) → mark_at latches.old p ≡ false }
    ensures { (d : Design) (setups : List Setup) → d.pins ≡ pins.now → length d.places ≡ length faults.old → AreMarks d throughs.now setups marks.now → result ≡ register_fault d throughs.now setups }
{
    put_mixed(pins, marks, faults);
    put_latches(pins, throughs, marks, latches);
    first_fault(faults, latches)
}

/// The first refusal of a register, in order of instances: of a clock pin without one launch edge, by pin, and then of a
/// delay that leaves a data pin.
pub fn fault_of_registers(
    alloc: Global,
    flat: &Flat,
    throughs: &[Through],
    marks: &RegisterMarks,
) -> Result<Option<RegisterFault>, AllocError>
    requires within { All (IsThroughWithin (length flat.now.pins)) throughs.now }
    requires marks { (setups : List Setup) × AreMarks flat.now throughs.now setups marks.now }
    ensures { (setups : List Setup) → AreMarks flat.now throughs.now setups marks.now → IfOk result (λ fault. fault ≡ register_fault flat.now throughs.now setups) }
{
    let pins = flat.pins();
    let places = flat.places().len();
    let mut faults = vec![in alloc; None; places]?;
    let mut latches = vec![in alloc; false; places]?;
    Ok(judge(pins, throughs, marks, &mut faults, &mut latches))
}
