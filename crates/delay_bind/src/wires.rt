ghost use Rattle.std.specs.Prelude.{◌≡◌, ◌^◌, ℕ, ◌<◌, length, All, IfOk};
ghost use Rattle.bud_design.specs.Designs.{driver_of};
ghost use Rattle.net_delays.specs.WireForests.{drive, pin_count};
ghost use Rattle.delay_bind.specs.Binding.{IsWiresAnswer};
ghost use Rattle.delay_bind.specs.Leaves.{IsSoundNet};

use crate::faults::BindFault;
use crate::naming::name_of_pin;
use bud_base::Times;
use flat_design::Flat;
use net_delays::{Along, WireForest, wire_delays};
use std::alloc::{AllocError, Global};

/// The trees of a design's wires.
pub fn forest_of(alloc: Global, flat: &Flat) -> Result<WireForest, AllocError>
    ensures pins { IfOk result (λ forest. pin_count forest ≡ length flat.now.pins) }
    ensures drives { IfOk result (λ forest. (v : ℕ) → drive forest v ≡ driver_of flat.now.wires v) }
{
    WireForest::new(alloc, flat.pin_count(), flat.wires())
}

/// The delay of each wire in ps, or the refusal of the first of which a rest is negative.
pub fn delays_of(
    alloc: Global,
    flat: &Flat,
    forest: &WireForest,
    alongs: &[Along],
) -> Result<Times, BindFault>
    requires pins { pin_count forest.now ≡ length flat.now.pins }
    requires drives { (v : ℕ) → drive forest.now v ≡ driver_of flat.now.wires v }
    requires few { length alongs.now < 2 ^ 32 }
    requires sound { All (IsSoundNet flat.now) alongs.now }
    ensures { IsWiresAnswer flat.now alongs.now result }
{
    let wires = flat.wires();
    let Ok(sums) = forest.sums(alloc, alongs) else {
        return Err(BindFault::NoMemory);
    };
    let Ok(delays) = wire_delays(alloc, wires, &sums) else {
        return Err(BindFault::NoMemory);
    };
    let Some(pin) = forest.negative_rest(&sums, alongs) else {
        return Ok(delays);
    };
    match name_of_pin(alloc, flat, pin) {
        Ok(name) => Err(BindFault::NegativeRest(name)),
        Err(_) => Err(BindFault::NoMemory),
    }
}
