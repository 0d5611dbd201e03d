ghost use Rattle.std.specs.Prelude.{◌≡◌, ◌∷◌, [], ◌++◌, ℕ, List, Some, false, IfSome, OnOk, IfOk};
ghost use Rattle.text_scan.specs.Gives.{Gives};
ghost use Rattle.sdf_reader.specs.Lefts.{tokens_left, Advances};
ghost use Rattle.sdf_reader.specs.Names as names;
ghost use Rattle.sdf_lex.specs.Words.{is_plain};
ghost use Rattle.sdf_reader.specs.Names.{behind_byte, behind_index, is_outside, ends_name, is_name, escaped, printed_from, printed};

use crate::marks::word;
use bud_base::Text;
use line_text::Reading;
use std::alloc::{AllocError, Global};

/// Where a byte of a name stands.
#[derive(Clone, Copy)]
enum Place {
    Outside,
    Escape,
    Bracket,
    Index,
}

#[inline]
fn is_plain(byte: u8) -> bool
    ensures { result ≡ is_plain byte }
{
    byte.is_ascii_alphanumeric() || byte == b'_' || byte == b'$'
}

#[inline]
fn behind_outside(divider: u8, byte: u8) -> Option<Place>
    ensures { result ≡ behind_byte divider (Place.Outside) byte }
{
    if is_plain(byte) || byte == divider {
        Some(Place::Outside)
    } else if byte == b'\\' {
        Some(Place::Escape)
    } else if byte == b'[' {
        Some(Place::Bracket)
    } else {
        None
    }
}

#[inline]
fn behind_index(byte: u8) -> Option<Place>
    ensures { result ≡ behind_index byte }
{
    if byte.is_ascii_digit() {
        Some(Place::Index)
    } else if byte == b']' {
        Some(Place::Outside)
    } else {
        None
    }
}

/// Where the next byte of a name stands; None where this one can't stand there.
#[inline]
fn behind_byte(divider: u8, place: Place, byte: u8) -> Option<Place>
    ensures { result ≡ behind_byte divider place byte }
{
    match place {
        Place::Outside => behind_outside(divider, byte),
        Place::Escape => {
            if byte.is_ascii_graphic() {
                Some(Place::Outside)
            } else {
                None
            }
        }
        Place::Bracket => {
            if byte.is_ascii_digit() {
                Some(Place::Index)
            } else {
                None
            }
        }
        Place::Index => behind_index(byte),
    }
}

#[inline]
fn is_outside(place: Place) -> bool
    ensures { result ≡ is_outside place }
{
    match place {
        Place::Outside => true,
        _ => false,
    }
}

/// Whether the word is a name.
fn is_name(divider: u8, bytes: &[u8]) -> bool
    ensures { result ≡ is_name divider bytes.now }
{
    let mut place = Place::Outside;
    for byte in bytes {
        let Some(next) = behind_byte(divider, place, *byte) else {
            return false;
        };
        place = next;
    }
    is_outside(place)
}

/// Adds an escaped character in printed form; the next one isn't escaped.
#[inline]
fn put_escaped(out: &mut Vec<u8>, byte: u8) -> Result<bool, AllocError>
    ensures { IfOk result (λ behind. (behind ≡ false) × (out.new.items ≡ out.old.items ++ escaped byte)) }
{
    if is_plain(byte) {
        out.push(byte)?;
        return Ok(false);
    }
    out.push(b'\\')?;
    out.push(byte)?;
    Ok(false)
}

/// Adds a byte of a name in printed form, and says whether the next one stands behind a backslash.
#[inline]
fn put_byte(out: &mut Vec<u8>, divider: u8, escape: bool, byte: u8) -> Result<bool, AllocError>
    ensures { IfOk result (λ behind. (rest : List ℕ) →
        out.new.items ++ printed_from divider behind rest ≡ out.old.items ++ printed_from divider escape (byte ∷ rest)) }
{
    if escape {
        return put_escaped(out, byte);
    }
    if byte == b'\\' {
        return Ok(true);
    }
    if byte == divider {
        out.push(b'/')?;
        return Ok(false);
    }
    out.push(byte)?;
    Ok(false)
}

/// The printed form of a name.
pub fn printed(alloc: Global, divider: u8, bytes: &[u8]) -> Result<Text, AllocError>
    ensures { IfOk result (λ text. text ≡ printed divider bytes.now) }
{
    let mut out = Vec::with_capacity(alloc, bytes.len())?;
    let mut escape = false;
    for byte in bytes {
        escape = put_byte(&mut out, divider, escape, *byte)?;
    }
    Ok(Text::from_vec(out))
}

/// The next token, which is a name, as it stands in the text.
#[inline]
#[tactic(auto, unfolding(crate::specs::Names::name))]
pub fn name(divider: u8, left: Reading<'_>) -> Option<(&[u8], Reading<'_>)>
    ensures read { Gives (λ r. (printed divider r.0.now, tokens_left r.1)) result (names.name divider (tokens_left left.entry)) }
    ensures on { IfSome result (λ r. Advances left.entry r.1) }
{
    let (lexeme, left) = word(left)?;
    if is_name(divider, lexeme.span.bytes) {
        Some((lexeme.span.bytes, left))
    } else {
        None
    }
}
