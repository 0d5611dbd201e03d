ghost use Rattle.std.specs.Prelude.{◌≡◌, IfOk};
ghost use Rattle.bud_design.specs.Exceptions.{step_at};
ghost use Rattle.class_steps.specs.Groups.{AreGroupPins};

use crate::groups::{GroupPin, GroupPins};
use bud_base::PinId;
use bud_design::{Exception, Met};
use std::alloc::AllocError;

/// The steps behind one more pin, by the pins of the exceptions' groups.
pub fn next_steps(
    exceptions: &[Exception],
    groups: &GroupPins,
    met: &Met,
    pin: PinId,
) -> Result<Met, AllocError>
    requires { AreGroupPins exceptions.now groups.now }
    ensures { IfOk result (λ m. m ≡ step_at exceptions.now pin.0 met.now) }
{
    let number = met.number;
    let steps = met.steps;
    if !groups.has(GroupPin { number, steps, pin }) {
        return Ok(*met);
    }
    match steps.checked_add(1) {
        None => Err(AllocError),
        Some(steps) => Ok(Met { number, steps }),
    }
}
