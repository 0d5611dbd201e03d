ghost use Rattle.std.specs.Prelude.{◌≡◌, ◌<◌, ◌++◌, OnOk, decimal, length};
ghost use Rattle.std.specs.Fmt.{signed_decimal};
ghost use Rattle.line_text.specs.Written.{spaced};
ghost use Rattle.bud_design.specs.Designs.{pin_name};

use bud_base::{PinId, Text};
use flat_design::Flat;
use itoa::Buffer;
use line_text::put_field;
use std::alloc::AllocError;

/// Adds a number as a field behind a space.
pub fn put_number(out: &mut Vec<u8>, number: u64) -> Result<(), AllocError>
    ensures { OnOk result (out.new.items ≡ out.old.items ++ spaced (decimal number)) }
{
    let mut buffer = Buffer::new();
    put_field(out, buffer.format(number).as_bytes())
}

/// Adds a weight as a field behind a space.
pub fn put_weight(out: &mut Vec<u8>, weight: i128) -> Result<(), AllocError>
    ensures { OnOk result (out.new.items ≡ out.old.items ++ spaced (signed_decimal weight)) }
{
    let mut buffer = Buffer::new();
    put_field(out, buffer.format(weight).as_bytes())
}

/// Adds a pin's printed name as a field behind a space.
pub fn put_pin(out: &mut Vec<u8>, flat: &Flat, pin: PinId) -> Result<(), AllocError>
    requires { pin.0 < length flat.now.pins }
    ensures { OnOk result (out.new.items ≡ out.old.items ++ spaced (pin_name flat.now 0 pin.0)) }
{
    let mut name = Text::new(*out.allocator());
    flat.name_of(pin, &mut name)?;
    put_field(out, name.as_slice())
}
