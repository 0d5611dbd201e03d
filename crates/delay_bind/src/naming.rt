ghost use Rattle.std.specs.Prelude.{◌≡◌, ◌<◌, length, IfOk};
ghost use Rattle.bud_design.specs.Designs.{place_name, pin_name};
ghost use Rattle.delay_bind.specs.Answers.{UnlessMemory};
ghost use Rattle.delay_bind.specs.Binding.{IsFaultWithin};
ghost use Rattle.delay_bind.specs.Entries.{named_fault};

use crate::faults::BindFault;
use bud_base::{PinId, Text};
use flat_design::Flat;
use registers::RegisterFault;
use std::alloc::{AllocError, Global};

/// The printed name of a pin.
pub fn name_of_pin(alloc: Global, flat: &Flat, pin: PinId) -> Result<Text, AllocError>
    requires { pin.0 < length flat.now.pins }
    ensures { IfOk result (λ text. text ≡ pin_name flat.now 0 pin.0) }
{
    let mut text = Text::new(alloc);
    flat.name_of(pin, &mut text)?;
    Ok(text)
}

/// The printed name of an instance.
fn name_of_place(alloc: Global, flat: &Flat, place: u32) -> Result<Text, AllocError>
    requires { place < length flat.now.places }
    ensures { IfOk result (λ text. text ≡ place_name flat.now.places 0 place) }
{
    let mut text = Text::new(alloc);
    flat.name_of_place(place, &mut text)?;
    Ok(text)
}

/// The refusal of a register, by its name.
pub fn refusal(alloc: Global, flat: &Flat, fault: RegisterFault) -> BindFault
    requires { IsFaultWithin flat.now fault }
    ensures { UnlessMemory result (named_fault flat.now fault ≡ result) }
{
    match fault {
        RegisterFault::MixedEdge(pin) => match name_of_pin(alloc, flat, pin) {
            Ok(name) => BindFault::MixedEdge(name),
            Err(_) => BindFault::NoMemory,
        },
        RegisterFault::Latch(place) => match name_of_place(alloc, flat, place) {
            Ok(name) => BindFault::Latch(name),
            Err(_) => BindFault::NoMemory,
        },
    }
}
