ghost use Rattle.std.specs.Prelude.{◌≡◌, ◌<◌, length, All, Some, IfOk};
ghost use Rattle.bud_base.specs.Soundness.{IsSound};
ghost use Rattle.bud_design.specs.Designs.{pin_name};
ghost use Rattle.block_theory.specs.BlockValues.{IsPastValue, AreWritable};
ghost use Rattle.block_checks.specs.Faults.{IsThroughFault};
ghost use Rattle.through_pins.specs.Groups.{HasGroupsBelow};

use crate::values::past_blocks;
use block_theory::WriteFault;
use bud_base::{PinId, Text};
use bud_design::{Constraints, Layered};
use extreme_times::extreme_times;
use flat_design::Flat;
use port_nodes::node_chains;
use std::alloc::{AllocError, Global};
use through_pins::first_through_pin;

/// The refusal of a through pin, by its printed name.
fn through_fault(alloc: Global, flat: &Flat, pin: u32) -> WriteFault
    requires { pin < length flat.now.pins }
    ensures { IsThroughFault (pin_name flat.now 0 pin) result }
{
    let mut name = Text::new(alloc);
    match flat.name_of(PinId(pin), &mut name) {
        Ok(()) => WriteFault::ThroughInside(name),
        Err(_) => WriteFault::NoMemory,
    }
}

/// The first value past the limit, over the earliest and the latest arrival of each node at a block's port bits.
fn past_value(
    alloc: Global,
    flat: &Flat,
    all: &Constraints,
    layered: &Layered,
    blocks: &[u32],
) -> Result<Option<i64>, AllocError>
    requires sound { IsSound layered.now.problem }
    requires few { length layered.now.nodes < 2147483648 }
    ensures { IfOk result (λ value. IsPastValue flat.now all.now layered.now blocks.now value) }
{
    let extremes = extreme_times(alloc, &layered.problem)?;
    let chains = node_chains(alloc, layered)?;
    past_blocks(alloc, flat, all, layered, &extremes, &chains, blocks)
}

/// Whether constraint files may be written for the blocks at these places, or why not.
///
/// A through pin that is a port bit of a block or lies inside it is refused before any value is looked at.
pub fn check_blocks(
    alloc: Global,
    flat: &Flat,
    all: &Constraints,
    layered: &Layered,
    blocks: &[u32],
) -> Result<(), WriteFault>
    requires sound { IsSound layered.now.problem }
    requires few { length layered.now.nodes < 2147483648 }
    requires groups { All (HasGroupsBelow (length flat.now.pins)) all.now.exceptions }
    ensures answer { AreWritable flat.now all.now layered.now blocks.now result }
{
    if let Some(pin) = first_through_pin(flat, blocks, all.exceptions.as_slice()) {
        return Err(through_fault(alloc, flat, pin));
    }
    match past_value(alloc, flat, all, layered, blocks) {
        Ok(None) => Ok(()),
        Ok(Some(value)) => Err(WriteFault::Range(value)),
        Err(_) => Err(WriteFault::NoMemory),
    }
}
