ghost use Rattle.std.specs.Prelude.{◌≡◌, pos, ◌-ℤ◌, ◌≤ℤ◌, min, IfSome};
ghost use Rattle.std.specs.Option.{option_map};
ghost use Rattle.text_scan.specs.Gives.{Gives};
ghost use Rattle.line_text.specs.Numbers.{natural_of, whole_of, whole};
ghost use Rattle.line_text.specs.Clipped.{wide_clipped};
ghost use Rattle.line_text.specs.Readings.{fields_left, GoesOn};

use crate::parts::next_field;
use crate::readings::Reading;
use text_scan::lesser_of;

/// More than any number of a wide range, so that it may stand for what is more.
const PAST: u128 = 1267650600228229401496703205377;

/// What the digits stand for, or the greatest `u128` where that is less; None where there is no digit, or another byte.
#[inline]
fn wide_natural(digits: &[u8]) -> Option<u128>
    ensures { result ≡ option_map (λ n. min n 340282366920938463463374607431768211455) (natural_of digits.now) }
{
    if digits.is_empty() {
        return None;
    }
    let mut value: u128 = 0;
    for digit in digits {
        if !digit.is_ascii_digit() {
            return None;
        }
        value = value
            .saturating_mul(10)
            .saturating_add(u128::from(*digit - b'0'));
    }
    Some(value)
}

/// The number that the field spells, or a number past all wide ranges on the same side of 0.
#[inline]
#[tactic(auto, unfolding(crate::specs::Numbers::whole_of))]
fn wide_clipped(field: &[u8]) -> Option<i128>
    ensures { result ≡ option_map wide_clipped (whole_of field.now) }
{
    let Some((sign, digits)) = field.split_first() else {
        return None;
    };
    if *sign == b'-' {
        let number = wide_natural(digits)?;
        return Some(-(number.min(PAST) as i128));
    }
    let number = wide_natural(field)?;
    Some(number.min(PAST) as i128)
}

/// The next field as a whole number from `least` to `most`, as `whole` reads it, within 2^100 either way.
#[inline]
#[tactic(auto, unfolding(crate::specs::Numbers::whole))]
pub fn wide_whole(line: Reading<'_>, least: i128, most: i128) -> Option<(i128, Reading<'_>)>
    requires low { (pos 0 -ℤ pos 1267650600228229401496703205376) ≤ℤ least }
    requires between { least ≤ℤ most }
    requires high { most ≤ℤ pos 1267650600228229401496703205376 }
    ensures read { Gives (λ r. (r.0, fields_left r.1)) result (whole least most (fields_left line.entry)) }
    ensures range { IfSome result (λ r. (least ≤ℤ r.0) × (r.0 ≤ℤ most)) }
    ensures on { IfSome result (λ r. GoesOn line.entry r.1) }
{
    let (field, rest) = next_field(line.rest)?;
    let number = wide_clipped(field.bytes)?;
    if least <= number && number <= most {
        return Some((
            number,
            Reading {
                rest,
                breach: line.breach,
            },
        ));
    }
    let breach = lesser_of(line.breach, Some(field.at));
    Some((least, Reading { rest, breach }))
}
