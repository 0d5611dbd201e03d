ghost use Rattle.std.specs.Prelude.{◌≡◌, ◌<◌, ◌^◌, ℕ, length, slice_index, IsTrue, IfOk};
ghost use Rattle.net_drivers.specs.Chains.{StayWithin, IsFollowed, IsDoubled};
ghost use Rattle.net_drivers.specs.Numbering.{AreSteps, ArePinsAt, ArePinsOf, AreSlotsBelow, step_from, pin_in};

use crate::pins::LocalPin;
use crate::slots::Slot;
use std::alloc::{AllocError, Global};

/// The bit to which an assign leads from the bit of this number; the bit itself where none does.
fn step_from(bit: u32, slot: Slot) -> u32
    ensures { result ≡ step_from bit slot }
{
    match slot {
        Slot::Assigned(Some(next)) => next,
        _ => bit,
    }
}

/// Where an assign leads from each bit.
fn next_bits(alloc: Global, slots: &[Slot]) -> Result<Vec<u32>, AllocError>
    requires { length slots.now < 2 ^ 32 }
    ensures { IfOk result (λ next. AreSteps slots.now next.items) }
{
    let mut next = Vec::with_capacity(alloc, slots.len())?;
    for (bit, slot) in slots.iter().enumerate() {
        next.push(step_from(bit as u32, *slot))?;
    }
    Ok(next)
}

/// The pin that a slot names.
fn pin_in(slot: Slot) -> Option<LocalPin>
    ensures { result ≡ pin_in slot }
{
    match slot {
        Slot::Pin(pin) => Some(pin),
        _ => None,
    }
}

/// The pins that the slots of these numbers name.
fn pins_at(alloc: Global, slots: &[Slot], far: &[u32]) -> Result<Vec<Option<LocalPin>>, AllocError>
    requires { (k : ℕ) → k < length far.now → slice_index far.now k < length slots.now }
    ensures { IfOk result (λ pins. ArePinsAt slots.now far.now pins.items) }
{
    let mut pins = Vec::with_capacity(alloc, far.len())?;
    for bit in far {
        pins.push(pin_in(slots[*bit as usize]))?;
    }
    Ok(pins)
}

/// The pin that drives each bit, with 2^22 assigns followed, in time linear in the bits.
pub fn driving_pins(alloc: Global, slots: &[Slot]) -> Result<Vec<Option<LocalPin>>, AllocError>
    requires small { length slots.now < 2 ^ 32 }
    requires below { AreSlotsBelow slots.now }
    ensures { IfOk result (λ pins. ArePinsOf 4194304 slots.now pins.items) }
{
    let next = next_bits(alloc, slots)?;
    let far = follow(alloc, next.as_slice())?;
    let pins = pins_at(alloc, slots, far.as_slice())?;
    Ok(pins)
}

/// Where 2^22 steps lead from each bit, in time linear in the bits.
pub fn follow(alloc: Global, next: &[u32]) -> Result<Vec<u32>, AllocError>
    requires within { StayWithin next.now }
    ensures { IfOk result (λ far. IsFollowed 4194304 next.now far.items) }
{
    let mut far = Vec::from_slice(alloc, next)?;
    for _round in 0..22u32 {
        if rests(far.as_slice()) {
            return Ok(far);
        }
        far = double(alloc, far.as_slice())?;
    }
    Ok(far)
}

/// Whether going on leads no further.
fn rests(far: &[u32]) -> bool
    requires within { StayWithin far.now }
    ensures { IsTrue result → IsDoubled far.now far.now }
{
    for bit in far {
        if far[*bit as usize] != *bit {
            return false;
        }
    }
    true
}

/// Goes on from each bit as far again.
fn double(alloc: Global, far: &[u32]) -> Result<Vec<u32>, AllocError>
    requires within { StayWithin far.now }
    ensures { IfOk result (λ twice. IsDoubled far.now twice.items) }
{
    let mut twice = Vec::with_capacity(alloc, far.len())?;
    for halfway in far {
        twice.push(far[*halfway as usize])?;
    }
    Ok(twice)
}
