ghost use Rattle.std.specs.Prelude.{◌≡◌, ◌<◌, ◌==◌, ◌&&◌, length};
ghost use Rattle.bud_design.specs.Designs.{place_at, pin_at};
ghost use Rattle.delay_bind.specs.Answers.{IsJudged, IsRowPin, has_side};
ghost use Rattle.delay_bind.specs.Rows.{own_pin_fault, pin_fault, unless};
ghost use Rattle.delay_bind.specs.declared.faults.BindFault.TheVariants.{NotALeaf};

use crate::faults::BindFault;
use crate::names::{copied, pin_of, pin_text};
use bud_base::PinId;
use bud_syntax::{Dir, SdfRow};
use flat_design::Flat;
use std::alloc::Global;

/// Whether the direction is an output's, or else an input's.
fn is_side(output: bool, dir: Dir) -> bool
    ensures { result ≡ has_side output dir }
{
    match dir {
        Dir::Input => !output,
        Dir::Output => output,
        Dir::Inout => false,
    }
}

/// Whether the pin is an output, or else an input, of the place.
fn is_own(flat: &Flat, place: u32, output: bool, pin: PinId) -> bool
    requires { pin.0 < length flat.now.pins }
    ensures { result ≡ ((pin_at flat.now.pins pin.0).place == place && has_side output (pin_at flat.now.pins pin.0).dir) }
{
    let pin = &flat.pins()[pin.0 as usize];
    pin.place == place && is_side(output, pin.dir)
}

/// The pin of a row's place that a name means: an output, or else an input.
pub fn own_pin(
    alloc: Global,
    flat: &Flat,
    place: u32,
    row: &SdfRow,
    output: bool,
    name: &[u8],
) -> Result<PinId, BindFault>
    ensures { IsJudged (own_pin_fault flat.now place row.now (has_side output) name.now) (IsRowPin flat.now row.now name.now) result }
{
    let Ok(text) = pin_text(alloc, row, name) else {
        return Err(BindFault::NoMemory);
    };
    match pin_of(flat, &text) {
        Some(pin) if is_own(flat, place, output, pin) => Ok(pin),
        _ => Err(BindFault::UnknownPin(text)),
    }
}

/// The pin that a row's name means.
pub fn any_pin(alloc: Global, flat: &Flat, row: &SdfRow, name: &[u8]) -> Result<PinId, BindFault>
    ensures { IsJudged (pin_fault flat.now row.now name.now) (IsRowPin flat.now row.now name.now) result }
{
    let Ok(text) = pin_text(alloc, row, name) else {
        return Err(BindFault::NoMemory);
    };
    match pin_of(flat, &text) {
        Some(pin) => Ok(pin),
        None => Err(BindFault::UnknownPin(text)),
    }
}

/// Refuses a row of a plain instance.
pub fn leaf(alloc: Global, flat: &Flat, place: u32, row: &SdfRow) -> Result<(), BindFault>
    requires { place < length flat.now.places }
    ensures { IsJudged (unless (place_at flat.now.places place).leaf (NotALeaf row.now.instance)) (λ _. Unit {0}) result }
{
    if flat.places()[place as usize].leaf {
        return Ok(());
    }
    match copied(alloc, row.instance.as_slice()) {
        Ok(name) => Err(BindFault::NotALeaf(name)),
        Err(_) => Err(BindFault::NoMemory),
    }
}
