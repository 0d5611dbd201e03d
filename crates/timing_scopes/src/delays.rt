ghost use Rattle.std.specs.Prelude.{◌≡◌, ◌==◌, not, map, filter, OnOk, IfOk};
ghost use Rattle.std.specs.List.{list_any};
ghost use Rattle.bud_design.specs.Exceptions.{has_pin};
ghost use Rattle.timing_scopes.specs.Resolving.{same_place, raised, with_delay, with_delays, kept, delay_at, delayed};

use crate::scopes::{PinDelay, PinDelays};
use bud_base::PinId;
use bud_syntax::Edge;
use std::alloc::AllocError;

fn same_place(x: PinDelay, y: PinDelay) -> bool
    ensures { result ≡ same_place x y }
{
    x.pin.0 == y.pin.0 && (x.clock == y.clock && x.edge == y.edge)
}

/// The second, raised to the first where both are at one pin from one edge of one clock.
fn raised(x: PinDelay, y: PinDelay) -> PinDelay
    ensures { result ≡ raised x y }
{
    if same_place(x, y) && y.amount <= x.amount {
        x
    } else {
        y
    }
}

fn has_place(delays: &[PinDelay], x: PinDelay) -> bool
    ensures { result ≡ list_any (same_place x) delays.now }
{
    for y in delays {
        if same_place(x, *y) {
            return true;
        }
    }
    false
}

fn raise(delays: &mut [PinDelay], x: PinDelay)
    ensures { delays.new ≡ map (raised x) delays.old }
{
    for y in delays.iter_mut() {
        *y = raised(x, *y);
    }
}

/// Adds a delay; for an equal pin, clock and edge the greater amount stands.
fn add_delay(delays: &mut Vec<PinDelay>, x: PinDelay) -> Result<(), AllocError>
    ensures { OnOk result (delays.new.items ≡ with_delay delays.old.items x) }
{
    if has_place(delays.as_slice(), x) {
        raise(delays.as_mut_slice(), x);
    } else {
        delays.push(x)?;
    }
    Ok(())
}

fn has_pin(pins: &[PinId], pin: PinId) -> bool
    ensures { result ≡ has_pin pins.now pin.0 }
{
    for other in pins {
        if *other == pin {
            return true;
        }
    }
    false
}

/// The delays at other pins than these.
fn others(pins: &[PinId], delays: &PinDelays) -> Result<Vec<PinDelay>, AllocError>
    ensures { IfOk result (λ found. found.items ≡ filter (λ x. not (has_pin pins.now x.pin.0)) delays.now) }
{
    let mut found = Vec::new(delays.allocator());
    for delay in delays.as_slice() {
        if !has_pin(pins, delay.pin) {
            found.push(*delay)?;
        }
    }
    Ok(found)
}

/// The delays that stand when a command comes with these pins: all where it adds, else those at other pins.
fn kept(add: bool, pins: &[PinId], delays: &PinDelays) -> Result<Vec<PinDelay>, AllocError>
    ensures { IfOk result (λ stand. stand.items ≡ kept add pins.now delays.now) }
{
    if add {
        Vec::from_slice(delays.allocator(), delays.as_slice())
    } else {
        others(pins, delays)
    }
}

/// The delays with one more at each of these pins.
pub fn delayed(
    add: bool,
    pins: &[PinId],
    clock: u32,
    edge: Edge,
    amount: i64,
    delays: &PinDelays,
) -> Result<PinDelays, AllocError>
    ensures { IfOk result (λ made. made ≡ delayed add pins.now clock edge amount delays.now) }
{
    let mut made = kept(add, pins, delays)?;
    for pin in pins {
        add_delay(
            &mut made,
            PinDelay {
                pin: *pin,
                clock,
                edge,
                amount,
            },
        )?;
    }
    Ok(PinDelays::from_vec(made))
}

/// The same delays.
pub fn unchanged(delays: &PinDelays) -> Result<PinDelays, AllocError>
    ensures { IfOk result (λ made. made ≡ delays.now) }
{
    let made = Vec::from_slice(delays.allocator(), delays.as_slice())?;
    Ok(PinDelays::from_vec(made))
}
