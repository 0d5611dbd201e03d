ghost use Rattle.std.specs.Prelude.{◌≡◌, ◌≤◌, IfSome, true};
ghost use Rattle.text_scan.specs.Gives.{Gives};
ghost use Rattle.text_scan.specs.Digits.{front, behind};
ghost use Rattle.text_scan.specs.Scans.{behind_sign, behind_point, point_of, scanned};
ghost use Rattle.text_scan.specs.Decimals.{fraction_of};
ghost use Rattle.sdf_reader.specs.Lefts.{tokens_left, Advances};
ghost use Rattle.sdf_reader.specs.Numbers as numbers;
ghost use Rattle.sdf_reader.specs.Numbers.{is_number, amount, in_range};

use crate::marks::word;
use line_text::Reading;
use text_scan::{Cursor, Round, ScanFault, lesser_of};

/// The digits at the front, and what stands behind them.
fn split_digits(text: &[u8]) -> (&[u8], &[u8])
    ensures front { result.0.now ≡ front text.now }
    ensures behind { result.1.now ≡ behind text.now }
{
    let mut length = 0;
    while length < text.len() && text[length].is_ascii_digit() {
        length += 1;
    }
    text.split_at(length)
}

#[inline]
fn behind_sign(text: &[u8]) -> &[u8]
    ensures { result.now ≡ behind_sign text.now }
{
    match text.split_first() {
        Some((b'-', rest)) => rest,
        Some((b'+', rest)) => rest,
        _ => text,
    }
}

#[inline]
fn split_point(text: &[u8]) -> (&[u8], &[u8])
    ensures fraction { result.0.now ≡ fraction_of (point_of text.now) }
    ensures behind { result.1.now ≡ behind_point text.now }
{
    match text.split_first() {
        Some((b'.', rest)) => split_digits(rest),
        _ => (&[], text),
    }
}

/// Whether the word is a number.
#[tactic(auto, unfolding(text_scan::specs::Scans::scanned))]
fn is_number(word: &[u8]) -> bool
    ensures { result ≡ is_number word.now }
{
    let (whole, rest) = split_digits(behind_sign(word));
    let (fraction, rest) = split_point(rest);
    rest.is_empty() && whole.len() + fraction.len() > 0
}

/// The number that the word spells, times the unit, rounded up; None where it passes 10^9 either way.
fn amount(unit: u64, word: &[u8]) -> Option<i64>
    requires some { 1 ≤ unit }
    requires most { unit ≤ 100000000 }
    requires number { is_number word.now ≡ true }
    ensures { result ≡ in_range (amount unit word.now) }
{
    let mut cursor = Cursor::new(word);
    match cursor.decimal(unit, Round::Up) {
        Ok(amount) => Some(amount),
        Err(ScanFault::OutOfRange) => None,
        Err(ScanFault::NotNumber) => None,
    }
}

/// The next token, which is a number, in ps. One that passes 10^9 either way is a breach, and 0 stands for it.
#[inline]
#[tactic(auto, unfolding(crate::specs::Numbers::number))]
pub fn number(unit: u64, left: Reading<'_>) -> Option<(i64, Reading<'_>)>
    requires some { 1 ≤ unit }
    requires most { unit ≤ 100000000 }
    ensures read { Gives (λ r. (r.0, tokens_left r.1)) result (numbers.number unit (tokens_left left.entry)) }
    ensures on { IfSome result (λ r. Advances left.entry r.1) }
{
    let (lexeme, left) = word(left)?;
    if !is_number(lexeme.span.bytes) {
        return None;
    }
    match amount(unit, lexeme.span.bytes) {
        Some(amount) => Some((amount, left)),
        None => {
            let rest = left.rest;
            let breach = lesser_of(left.breach, Some(lexeme.span.at));
            Some((0, Reading { rest, breach }))
        }
    }
}
