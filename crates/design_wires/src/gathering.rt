ghost use Rattle.std.specs.Prelude.{◌≡◌, ℕ, ◌++◌, ◌<◌, length, map, All, Contains, IfOk, OnOk, slice_index_or};
ghost use Rattle.bud_design.specs.Designs.{place_at};
ghost use Rattle.bud_design.specs.DesignRules.{HasParent};
ghost use Rattle.bud_design.specs.Lists.{Lists};
ghost use Rattle.elaborations.specs.Elaborations.{ends_before, wire_at};
ghost use Rattle.design_wires.specs.Gathering.{JoinsPins, JoinPins, wires_of, gathered};
ghost use Rattle.design_wires.specs.Sorting.{EndApart};

use crate::numbers::Numbers;
use crate::sorting::by_last_pin;
use bud_base::Listed;
use bud_design::{Pin, Place, Wire, Wires};
use net_drivers::LocalWire;
use std::alloc::{AllocError, Global};

/// The wires of a module.
pub type LocalWires = Listed<LocalWire>;

/// Adds the wires of a place.
fn put_wires(
    into: &mut Vec<Wire>,
    numbers: &Numbers<'_>,
    home: u32,
    wires: &[LocalWire],
) -> Result<(), AllocError>
    requires home { home < length numbers.now.places.now }
    requires joined { All (JoinsPins numbers.now.places.now numbers.now.pins.now home) wires.now }
    ensures { OnOk result (into.new.items ≡ into.old.items ++ map (wire_at numbers.now.places.now numbers.now.pins.now home) wires.now) }
{
    for wire in wires {
        let from = numbers.number_of(home, wire.from);
        let to = numbers.number_of(home, wire.to);
        into.push(Wire { from, to, home })?;
    }
    Ok(())
}

/// The wires of the module of a place.
fn wires_of<'a>(kinds: &[u32], locals: &'a [LocalWires], place: usize) -> &'a [LocalWire]
    requires place { place < length kinds.now }
    requires known { All (λ k. k < length locals.now) kinds.now }
    ensures { result.now ≡ wires_of locals.now kinds.now place }
{
    locals[kinds[place] as usize].as_slice()
}

/// The wires of all places, place by place.
fn gathered(
    alloc: Global,
    numbers: &Numbers<'_>,
    kinds: &[u32],
    locals: &[LocalWires],
) -> Result<Vec<Wire>, AllocError>
    requires few { length numbers.now.places.now < 2147483648 }
    requires kinds { length kinds.now ≡ length numbers.now.places.now }
    requires known { All (λ k. k < length locals.now) kinds.now }
    requires joined { JoinPins numbers.now.places.now numbers.now.pins.now (wires_of locals.now kinds.now) }
    ensures { IfOk result (λ wires. wires.items ≡ gathered numbers.now.places.now numbers.now.pins.now (wires_of locals.now kinds.now)) }
{
    let mut wires = Vec::new(alloc);
    for home in 0..numbers.places.len() {
        put_wires(
            &mut wires,
            numbers,
            home as u32,
            wires_of(kinds, locals, home),
        )?;
    }
    Ok(wires)
}

/// The wires of a design in order of their last pins, from the wires of the modules and the module of each place.
pub fn design_wires(
    alloc: Global,
    places: &[Place],
    pins: &[Pin],
    kinds: &[u32],
    locals: &[LocalWires],
) -> Result<Wires, AllocError>
    requires parents { (p : ℕ) → p < length places.now → HasParent p (place_at places.now p).parent }
    requires in_places { All (λ v. v.place < length places.now) pins.now }
    requires few_places { length places.now < 2147483648 }
    requires few_pins { length pins.now < 2147483648 }
    requires kinds { length kinds.now ≡ length places.now }
    requires known { All (λ k. k < length locals.now) kinds.now }
    requires joined { JoinPins places.now pins.now (wires_of locals.now kinds.now) }
    requires apart { EndApart (gathered places.now pins.now (wires_of locals.now kinds.now)) }
    ensures { IfOk result (Lists ends_before (Contains (gathered places.now pins.now (wires_of locals.now kinds.now)))) }
{
    let numbers = Numbers::new(alloc, places, pins)?;
    let wires = gathered(alloc, &numbers, kinds, locals)?;
    by_last_pin(alloc, pins.len(), wires.as_slice())
}
