ghost use Rattle.std.specs.Prelude.{◌≡◌, ◌≤◌, IfSome};
ghost use Rattle.text_scan.specs.Gives.{Gives};
ghost use Rattle.sdf_reader.specs.Lefts.{tokens_left, Advances, Follows};
ghost use Rattle.sdf_reader.specs.Values as values;
ghost use Rattle.sdf_reader.specs.Values.{greater, triple_value};
ghost use Rattle.sdf_reader.specs.Found.{found_of};

use crate::marks::{begins_colon, begins_open, begins_word, closing, colon, opening};
use crate::numbers::number;
use line_text::Reading;

/// How many values may stand behind the first one of an entry.
const FURTHER: usize = 11;

#[inline]
fn greater(first: i64, second: i64) -> i64
    ensures { result ≡ greater first second }
{
    if first < second { second } else { first }
}

/// What counts of a triple.
#[inline]
fn triple_value(first: Option<i64>, second: Option<i64>, third: Option<i64>) -> i64
    ensures { result ≡ triple_value first second third }
{
    match (first, second, third) {
        (_, _, Some(number)) => number,
        (Some(number), Some(other), None) => greater(number, other),
        (Some(number), None, None) => number,
        (None, Some(number), None) => number,
        (None, None, None) => 0,
    }
}

/// A number, if one stands next.
#[inline]
#[tactic(auto, unfolding(crate::specs::Values::maybe_number))]
fn maybe_number(unit: u64, left: Reading<'_>) -> Option<(Option<i64>, Reading<'_>)>
    requires some { 1 ≤ unit }
    requires most { unit ≤ 100000000 }
    ensures read { Gives (λ r. (r.0, tokens_left r.1)) result (values.maybe_number unit (tokens_left left.entry)) }
    ensures on { IfSome result (λ r. Follows left.entry r.1) }
{
    if !begins_word(left) {
        return Some((None, left));
    }
    let (number, left) = number(unit, left)?;
    Some((Some(number), left))
}

/// The second and the third part of a triple, and what counts of it.
#[tactic(auto, unfolding(crate::specs::Values::triple))]
fn triple(unit: u64, first: Option<i64>, left: Reading<'_>) -> Option<(i64, Reading<'_>)>
    requires some { 1 ≤ unit }
    requires most { unit ≤ 100000000 }
    ensures read { Gives (λ r. (r.0, tokens_left r.1)) result (values.triple unit first (tokens_left left.entry)) }
    ensures on { IfSome result (λ r. Follows left.entry r.1) }
{
    let left = colon(left)?;
    let (second, left) = maybe_number(unit, left)?;
    let left = colon(left)?;
    let (third, left) = maybe_number(unit, left)?;
    Some((triple_value(first, second, third), left))
}

/// What stands behind the first part of a value, and what counts of it.
#[inline]
fn others(unit: u64, first: Option<i64>, left: Reading<'_>) -> Option<(i64, Reading<'_>)>
    requires some { 1 ≤ unit }
    requires most { unit ≤ 100000000 }
    ensures read { Gives (λ r. (r.0, tokens_left r.1)) result (values.others unit first (tokens_left left.entry)) }
    ensures on { IfSome result (λ r. Follows left.entry r.1) }
{
    if begins_colon(left) {
        triple(unit, first, left)
    } else {
        Some((triple_value(None, None, first), left))
    }
}

/// A value, in ps.
#[tactic(auto, unfolding(crate::specs::Values::value))]
pub fn value(unit: u64, left: Reading<'_>) -> Option<(i64, Reading<'_>)>
    requires some { 1 ≤ unit }
    requires most { unit ≤ 100000000 }
    ensures read { Gives (λ r. (r.0, tokens_left r.1)) result (values.value unit (tokens_left left.entry)) }
    ensures on { IfSome result (λ r. Advances left.entry r.1) }
{
    let left = opening(left)?;
    let (first, left) = maybe_number(unit, left)?;
    let (value, left) = others(unit, first, left)?;
    let left = closing(left)?;
    Some((value, left))
}

/// Values that are read: the greatest of them, and what is left.
#[derive(Clone, Copy)]
struct Found<'a> {
    greatest: i64,
    left: Reading<'a>,
}

/// Another value behind those that are read.
#[tactic(auto, unfolding(crate::specs::Values::another))]
fn another(unit: u64, found: Found<'_>) -> Option<Found<'_>>
    requires some { 1 ≤ unit }
    requires most { unit ≤ 100000000 }
    ensures read { Gives found_of result (values.another unit (found_of found.entry)) }
    ensures on { IfSome result (λ r. Advances found.entry.left r.left) }
{
    let (number, left) = value(unit, found.left)?;
    let greatest = greater(found.greatest, number);
    Some(Found { greatest, left })
}

/// At most 11 further values.
fn further_values(unit: u64, first: Found<'_>) -> Option<Found<'_>>
    requires some { 1 ≤ unit }
    requires most { unit ≤ 100000000 }
    ensures read { Gives found_of result (values.up_to 11 unit (found_of first.entry)) }
    ensures on { IfSome result (λ r. Follows first.entry.left r.left) }
{
    let mut found = first;
    let mut further = FURTHER;
    while further > 0 && begins_open(found.left) {
        let Some(more) = another(unit, found) else {
            return None;
        };
        found = more;
        further -= 1;
    }
    Some(found)
}

/// The values of an entry; the greatest counts.
#[tactic(auto, unfolding(crate::specs::Values::values))]
pub fn values(unit: u64, left: Reading<'_>) -> Option<(i64, Reading<'_>)>
    requires some { 1 ≤ unit }
    requires most { unit ≤ 100000000 }
    ensures read { Gives (λ r. (r.0, tokens_left r.1)) result (values.values unit (tokens_left left.entry)) }
    ensures on { IfSome result (λ r. Advances left.entry r.1) }
{
    let (greatest, left) = value(unit, left)?;
    let found = further_values(unit, Found { greatest, left })?;
    Some((found.greatest, found.left))
}
