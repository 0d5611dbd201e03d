ghost use Rattle.std.specs.Prelude.{◌≡◌, ◌+◌, ◌*◌, ◌^◌, ◌<◌, ◌≤◌, length, min, true, IfOk};
ghost use Rattle.std.specs.Str.{all_ascii_digits};
ghost use Rattle.text_scan.specs.Digits.{front, behind, value_of};
ghost use Rattle.text_scan.specs.Decimals.{is_negative, signed, fraction_of, spelling};
ghost use Rattle.text_scan.specs.Scans.{sign_of, behind_sign, point_of, behind_point, scanned, is_away, HasParts, HasAmount, IsFrontAnswer};

use crate::decimals::{Round, ScanFault};

/// The greatest amount of a decimal in its unit, either way.
const LIMIT: u64 = 1000000000;

/// The digits at the front, and what stands behind them.
fn split_digits(text: &[u8]) -> (&[u8], &[u8])
    ensures front { result.0.now ≡ front text.now }
    ensures behind { result.1.now ≡ behind text.now }
{
    let mut length = 0;
    while length < text.len() && text[length].is_ascii_digit() {
        length += 1;
    }
    text.split_at(length)
}

/// Whether the sign at the front is a minus, and what stands behind the sign, if there is one.
fn split_sign(text: &[u8]) -> (bool, &[u8])
    ensures negative { result.0 ≡ is_negative (sign_of text.now) }
    ensures behind { result.1.now ≡ behind_sign text.now }
{
    match text.split_first() {
        Some((b'-', rest)) => (true, rest),
        Some((b'+', rest)) => (false, rest),
        _ => (false, text),
    }
}

/// The digits behind the point at the front, and what stands behind the point and them.
fn split_point(text: &[u8]) -> (&[u8], &[u8])
    ensures fraction { result.0.now ≡ fraction_of (point_of text.now) }
    ensures behind { result.1.now ≡ behind_point text.now }
{
    match text.split_first() {
        Some((b'.', rest)) => split_digits(rest),
        _ => (&[], text),
    }
}

/// The pieces of the number at the front of a text, and how many bytes they take.
#[derive(Clone, Copy)]
struct Scanned<'a> {
    negative: bool,
    whole: &'a [u8],
    fraction: &'a [u8],
    length: usize,
}

#[tactic(auto, unfolding(crate::specs::Scans::scanned))]
fn scan(text: &[u8]) -> Scanned<'_>
    ensures negative { result.negative ≡ is_negative (scanned text.now).sign }
    ensures whole { result.whole.now ≡ (scanned text.now).whole }
    ensures fraction { result.fraction.now ≡ fraction_of (scanned text.now).point }
    ensures whole_digits { all_ascii_digits result.whole.now ≡ true }
    ensures fraction_digits { all_ascii_digits result.fraction.now ≡ true }
    ensures length { result.length ≡ length (spelling (scanned text.now)) }
    ensures within { result.length ≤ length text.now }
{
    let (negative, rest) = split_sign(text);
    let (whole, rest) = split_digits(rest);
    let (fraction, rest) = split_point(rest);
    let length = text.len() - rest.len();
    Scanned {
        negative,
        whole,
        fraction,
        length,
    }
}

/// What the digits stand for, or 10^9 + 1 where that is less.
fn whole_amount(digits: &[u8]) -> u64
    requires { all_ascii_digits digits.now ≡ true }
    ensures { result ≡ min (value_of digits.now) 1000000001 }
{
    let mut value: u64 = 0;
    for digit in digits {
        value = (value * 10 + u64::from(*digit - b'0')).min(LIMIT + 1);
    }
    value
}

/// How many wholes the digits behind a point come to in the unit, and whether anything is left.
fn fraction_amount(unit: u64, digits: &[u8]) -> (u64, bool)
    requires digits { all_ascii_digits digits.now ≡ true }
    requires some { 1 ≤ unit }
    requires most { unit ≤ 100000000 }
    ensures parts { HasParts (unit * value_of digits.now) (10 ^ length digits.now) result.0 result.1 }
    ensures low { result.0 < unit }
{
    let mut parts = 0;
    let mut inexact = false;
    let mut place = digits.len();
    while place > 0 {
        place -= 1;
        let sum = unit * u64::from(digits[place] - b'0') + parts;
        parts = sum / 10;
        inexact = inexact | (sum % 10 != 0);
    }
    (parts, inexact)
}

/// The amount of a number without its sign in the unit, rounded away from 0 or towards it.
fn amount_of(unit: u64, whole: &[u8], fraction: &[u8], away: bool) -> u64
    requires whole { all_ascii_digits whole.now ≡ true }
    requires fraction { all_ascii_digits fraction.now ≡ true }
    requires some { 1 ≤ unit }
    requires most { unit ≤ 100000000 }
    ensures { HasAmount unit whole.now fraction.now away result }
{
    let wholes = whole_amount(whole);
    let (parts, inexact) = fraction_amount(unit, fraction);
    let up = u64::from(away & inexact);
    unit * wholes + parts + up
}

fn is_away(round: Round, negative: bool) -> bool
    ensures { result ≡ is_away round negative }
{
    match round {
        Round::Up => !negative,
        Round::Down => negative,
    }
}

/// The longest number at the front of the text, in the unit and rounded, and how many bytes it takes.
pub fn read_front(text: &[u8], unit: u64, round: Round) -> Result<(i64, usize), ScanFault>
    requires some { 1 ≤ unit }
    requires most { unit ≤ 100000000 }
    ensures answer { IsFrontAnswer text.now unit round result }
    ensures within { IfOk result (λ r. r.1 ≤ length text.now) }
{
    let number = scan(text);
    if number.whole.len() + number.fraction.len() == 0 {
        return Err(ScanFault::NotNumber);
    }
    let away = is_away(round, number.negative);
    let amount = amount_of(unit, number.whole, number.fraction, away);
    if amount > LIMIT {
        return Err(ScanFault::OutOfRange);
    }
    Ok((with_sign(number.negative, amount), number.length))
}

fn with_sign(negative: bool, amount: u64) -> i64
    requires { amount ≤ 1000000000 }
    ensures { result ≡ signed negative amount }
{
    if negative {
        -(amount as i64)
    } else {
        amount as i64
    }
}
