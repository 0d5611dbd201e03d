ghost use Rattle.std.specs.Prelude.{◌≡◌, ◌<◌, ◌==◌, ◌&&◌, not, length, IfOk, IfSome};
ghost use Rattle.std.specs.Option.{option_map};
ghost use Rattle.std.specs.Str.{bytes_eq};
ghost use Rattle.bud_design.specs.Designs.{named_pins};
ghost use Rattle.bud_design.specs.Names.{plain, meaning};
ghost use Rattle.delay_bind.specs.Rows.{row_name, row_place};

use bud_base::{PinId, Text};
use bud_syntax::SdfRow;
use flat_design::Flat;
use std::alloc::{AllocError, Global};

/// A copy of the bytes.
pub fn copied(alloc: Global, bytes: &[u8]) -> Result<Text, AllocError>
    ensures { IfOk result (λ text. text ≡ bytes.now) }
{
    Text::from_slice(alloc, bytes)
}

/// A row's name of a pin, with the row's instance in front.
pub fn pin_text(alloc: Global, row: &SdfRow, name: &[u8]) -> Result<Text, AllocError>
    ensures { IfOk result (λ text. text ≡ row_name row.now name.now) }
{
    let instance = row.instance.as_slice();
    if instance.is_empty() {
        return copied(alloc, name);
    }
    let mut text = Vec::from_slice(alloc, instance)?;
    text.push(b'/')?;
    text.extend_from_slice(name)?;
    Ok(Text::from_vec(text))
}

/// The place of a row's instance: the top where it is empty.
pub fn place_of(flat: &Flat, row: &SdfRow) -> Option<u32>
    ensures place { result ≡ row_place flat.now row.now }
    ensures within { IfSome result (λ p. p < length flat.now.places) }
{
    let instance = row.instance.as_slice();
    if instance.is_empty() {
        let _places = flat.places();
        return Some(0);
    }
    flat.find_place(instance)
}

/// The pin that a name with its instance in front means.
pub fn pin_of(flat: &Flat, text: &Text) -> Option<PinId>
    ensures meaning { option_map (λ v. v.0) result ≡ meaning (named_pins flat.now 0) text.now }
    ensures within { IfSome result (λ v. v.0 < length flat.now.pins) }
{
    flat.find_pin(text.as_slice())
}

/// Whether the byte is a backslash that makes the next byte stand for itself.
fn is_escape(escaped: bool, byte: u8) -> bool
    ensures { result ≡ (not escaped && byte == 92) }
{
    !escaped && byte == b'\\'
}

/// Whether the name is the plain name of one in printed form.
pub fn is_plain(printed: &[u8], name: &[u8]) -> bool
    ensures { result ≡ bytes_eq (plain printed.now) name.now }
{
    let mut escaped = false;
    let mut rest = name;
    for byte in printed {
        escaped = is_escape(escaped, *byte);
        if !escaped {
            match rest {
                [first, others @ ..] if *first == *byte => rest = others,
                _ => return false,
            }
        }
    }
    rest.is_empty()
}
