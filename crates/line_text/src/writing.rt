ghost use Rattle.std.specs.Prelude.{◌≡◌, ◌++◌, OnOk, decimal};
ghost use Rattle.std.specs.Fmt.{signed_decimal};
ghost use Rattle.line_text.specs.Written.{spaced};

use itoa::Buffer;
use std::alloc::AllocError;

/// Adds a field behind a space.
pub fn put_field(out: &mut Vec<u8>, field: &[u8]) -> Result<(), AllocError>
    ensures { OnOk result (out.new.items ≡ out.old.items ++ spaced field.now) }
{
    out.push(b' ')?;
    out.extend_from_slice(field)?;
    Ok(())
}

/// Adds a number of at least 0 as a field behind a space.
pub fn put_count(out: &mut Vec<u8>, number: u32) -> Result<(), AllocError>
    ensures { OnOk result (out.new.items ≡ out.old.items ++ spaced (decimal number)) }
{
    let mut buffer = Buffer::new();
    put_field(out, buffer.format(number).as_bytes())
}

/// Adds a whole number as a field behind a space.
pub fn put_whole(out: &mut Vec<u8>, number: i64) -> Result<(), AllocError>
    ensures { OnOk result (out.new.items ≡ out.old.items ++ spaced (signed_decimal number)) }
{
    let mut buffer = Buffer::new();
    put_field(out, buffer.format(number).as_bytes())
}
