ghost use Rattle.std.specs.Prelude.{◌≡◌, ◌≤◌, ◌<◌, ◌^◌, ◌+◌, length, IfOk};
ghost use Rattle.std.specs.List.{list_all};
ghost use Rattle.verilog_reader.specs.Left.{with_tokens};
ghost use Rattle.verilog_reader.specs.Constants.{radix_of, radix_in, is_digit_of, behind_digits, digits_from, digits, spelled, is_width, constant};
ghost use Rattle.verilog_reader.specs.Answers.{GivesRead};
ghost use Rattle.verilog_reader.specs.Readings.{left_of, word_seen, IsShorter, IsNoLonger};

use crate::left::{first_word, next_word};
use crate::numbers::{breached, number, value_up_to};
use crate::readings::{Reading, Stop};
use crate::spellings::Spelling;
use crate::words::sign;
use bud_syntax::Piece;
use verilog_lex::Kind;

/// How many digits a base has that begins so.
#[inline]
fn radix_of(base: &[u8]) -> Option<u8>
    ensures { result ≡ radix_of base.now }
{
    let (first, _) = base.split_first()?;
    match *first {
        b'b' | b'B' => Some(2),
        b'o' | b'O' => Some(8),
        b'd' | b'D' => Some(10),
        b'h' | b'H' => Some(16),
        _ => None,
    }
}

/// Whether the byte is a digit of the base, or one of those that stand in any.
#[inline]
fn is_digit_of(radix: u8, byte: u8) -> bool
    ensures { result ≡ is_digit_of radix byte }
{
    if byte.is_ascii_digit() {
        return byte - b'0' < radix;
    }
    match byte {
        b'a'..=b'f' | b'A'..=b'F' => radix == 16,
        b'x' | b'X' | b'z' | b'Z' | b'?' | b'_' => true,
        _ => false,
    }
}

/// Whether all bytes are digits of the base.
#[inline]
fn are_digits(radix: u8, bytes: &[u8]) -> bool
    ensures { result ≡ list_all (is_digit_of radix) bytes.now }
{
    for byte in bytes {
        if !is_digit_of(radix, *byte) {
            return false;
        }
    }
    true
}

/// What is left behind the words of digits that stand directly one behind the other, the first at this offset.
fn behind_digits<'a>(radix: u8, end: usize, left: Reading<'a>) -> Reading<'a>
    ensures read { left_of result ≡ with_tokens (left_of left.entry) (behind_digits radix left.entry.text.now end left.entry.tokens.now) }
    ensures on { IsNoLonger left.entry result }
{
    let mut end = end;
    let mut rest = left;
    while let Some((word, behind)) = first_word(rest) {
        if (word.at != end) | !are_digits(radix, word.bytes) {
            break;
        }
        end = word.at + word.bytes.len();
        rest = behind;
    }
    rest
}

/// What is left behind the digits that begin in this word, behind so many bytes of it.
#[inline]
fn digits_from<'a>(
    radix: u8,
    skipped: usize,
    word: Spelling<'a>,
    left: Reading<'a>,
) -> Result<Reading<'a>, Stop>
    requires { skipped ≤ length word.bytes.now }
    ensures read { GivesRead (λ r. left_of r) result (digits_from radix skipped (word_seen word.entry) (left_of left.entry)) }
    ensures on { IfOk result (IsNoLonger left.entry) }
{
    if !are_digits(radix, &word.bytes[skipped..]) {
        return Err(Stop::Syntax(word.at));
    }
    Ok(behind_digits(radix, word.at + word.bytes.len(), left))
}

/// What is left behind at least one digit, in the word of the base or behind it.
#[tactic(auto, unfolding(crate::specs::Constants::digits))]
fn digits<'a>(radix: u8, base: Spelling<'a>, left: Reading<'a>) -> Result<Reading<'a>, Stop>
    ensures read { GivesRead (λ r. left_of r) result (digits radix (word_seen base.entry) (left_of left.entry)) }
    ensures on { IfOk result (IsNoLonger left.entry) }
{
    if base.bytes.len() > 1 {
        return digits_from(radix, 1, base, left);
    }
    let (word, rest) = next_word(left)?;
    digits_from(radix, 0, word, rest)
}

/// How many digits the base of a constant has that this word begins.
#[inline]
fn radix_in(word: Spelling<'_>) -> Option<u8>
    ensures { result ≡ radix_in (word_seen word.entry) }
{
    match word.kind {
        Kind::Name => radix_of(word.bytes),
        _ => None,
    }
}

/// What is left behind a base and digits.
#[tactic(auto, unfolding(crate::specs::Constants::spelled))]
fn spelled<'a>(left: Reading<'a>) -> Result<Reading<'a>, Stop>
    ensures read { GivesRead (λ r. left_of r) result (spelled (left_of left.entry)) }
    ensures on { IfOk result (IsShorter left.entry) }
{
    let (base, rest) = next_word(left)?;
    match radix_in(base) {
        Some(radix) => digits(radix, base, rest),
        None => Err(Stop::Syntax(base.at)),
    }
}

/// Whether a constant may have so many bits.
#[inline]
fn is_width(bits: u32) -> bool
    ensures { result ≡ is_width bits }
{
    1 <= bits && bits <= 65536
}

/// A constant; a width of 0 or past 65,536 is a breach.
#[tactic(auto, unfolding(crate::specs::Constants::constant))]
pub fn constant<'a>(left: Reading<'a>) -> Result<(Piece, Reading<'a>), Stop>
    ensures read { GivesRead (λ r. (r.0, left_of r.1)) result (constant (left_of left.entry)) }
    ensures on { IfOk result (λ r. IsShorter left.entry r.1) }
{
    let (word, rest) = number(left)?;
    let rest = sign(rest, b'\'')?;
    let rest = spelled(rest)?;
    let bits = value_up_to(word.bytes);
    if is_width(bits) {
        return Ok((Piece::Const(bits), rest));
    }
    Ok((Piece::Const(bits), breached(rest, word.at)))
}
