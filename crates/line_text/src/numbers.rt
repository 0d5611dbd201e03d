ghost use Rattle.std.specs.Prelude.{◌≡◌, ◌+◌, ◌^◌, ◌<◌, ◌≤◌, pos, ◌-ℤ◌, ◌≤ℤ◌, length, min, IfSome};
ghost use Rattle.std.specs.Option.{option_map, ForSome};
ghost use Rattle.text_scan.specs.Gives.{Gives};
ghost use Rattle.text_scan.specs.Left.{end_of};
ghost use Rattle.line_text.specs.Numbers.{natural_of, whole_of, whole, count, word};
ghost use Rattle.line_text.specs.Clipped.{clipped};
ghost use Rattle.line_text.specs.Readings.{fields_left, GoesOn};

use crate::parts::next_field;
use crate::readings::Reading;
use text_scan::lesser_of;

/// More than any number of a range, so that it may stand for what is more.
const PAST: u64 = 4611686018427387905;

/// What the digits stand for, or the greatest `u64` where that is less; None where there is no digit, or another byte.
#[inline]
fn natural(digits: &[u8]) -> Option<u64>
    ensures { result ≡ option_map (λ n. min n 18446744073709551615) (natural_of digits.now) }
{
    if digits.is_empty() {
        return None;
    }
    let mut value: u64 = 0;
    for digit in digits {
        if !digit.is_ascii_digit() {
            return None;
        }
        value = value
            .saturating_mul(10)
            .saturating_add(u64::from(*digit - b'0'));
    }
    Some(value)
}

/// The number that the field spells, an optional `-` and digits, or a number past 2^62 on the same side of 0 where it is
/// past that; None where it spells none.
#[inline]
#[tactic(auto, unfolding(crate::specs::Numbers::whole_of))]
pub fn whole_number(field: &[u8]) -> Option<i64>
    ensures { result ≡ option_map clipped (whole_of field.now) }
{
    let Some((sign, digits)) = field.split_first() else {
        return None;
    };
    if *sign == b'-' {
        let number = natural(digits)?;
        return Some(-(number.min(PAST) as i64));
    }
    let number = natural(field)?;
    Some(number.min(PAST) as i64)
}

/// The next field as a whole number from `least` to `most`. None where it isn't one; a number out of
/// the range is a breach at its field, and `least` stands for it.
#[inline]
#[tactic(auto, unfolding(crate::specs::Numbers::whole))]
pub fn whole(line: Reading<'_>, least: i64, most: i64) -> Option<(i64, Reading<'_>)>
    requires low { (pos 0 -ℤ pos 4611686018427387904) ≤ℤ least }
    requires between { least ≤ℤ most }
    requires high { most ≤ℤ pos 4611686018427387904 }
    ensures read { Gives (λ r. (r.0, fields_left r.1)) result (whole least most (fields_left line.entry)) }
    ensures range { IfSome result (λ r. (least ≤ℤ r.0) × (r.0 ≤ℤ most)) }
    ensures on { IfSome result (λ r. GoesOn line.entry r.1) }
{
    let (field, rest) = next_field(line.rest)?;
    let number = whole_number(field.bytes)?;
    if least <= number && number <= most {
        return Some((
            number,
            Reading {
                rest,
                breach: line.breach,
            },
        ));
    }
    let breach = lesser_of(line.breach, Some(field.at));
    Some((least, Reading { rest, breach }))
}

/// The next field as a whole number from `least` to `most`, as `whole` reads it.
#[inline]
#[tactic(auto, unfolding(crate::specs::Numbers::count))]
pub fn count(line: Reading<'_>, least: u32, most: u32) -> Option<(u32, Reading<'_>)>
    requires { least ≤ most }
    ensures read { Gives (λ r. (r.0, fields_left r.1)) result (count least most (fields_left line.entry)) }
    ensures on { IfSome result (λ r. GoesOn line.entry r.1) }
{
    let (number, line) = whole(line, i64::from(least), i64::from(most))?;
    Some((number as u32, line))
}

/// Passes the next field, where it is this word.
#[inline]
#[tactic(auto, unfolding(crate::specs::Numbers::word))]
pub fn word<'a>(line: Reading<'a>, expected: &[u8]) -> Option<Reading<'a>>
    ensures read { Gives fields_left result (word expected.now (fields_left line.entry)) }
    ensures on { IfSome result (GoesOn line.entry) }
{
    let (field, rest) = next_field(line.rest)?;
    if field.bytes == expected {
        Some(Reading {
            rest,
            breach: line.breach,
        })
    } else {
        None
    }
}

/// The least breach of a line of which no field is left.
#[inline]
pub fn end(line: Reading<'_>) -> Option<Option<usize>>
    ensures read { Gives (λ breach. breach) result (end_of (fields_left line.entry)) }
    ensures within { IfSome result (λ breach. ForSome breach (λ at. at ≤ line.entry.rest.at)) }
{
    match next_field(line.rest) {
        Some(_) => None,
        None => Some(line.breach),
    }
}
