ghost use Rattle.std.specs.Prelude.{◌≡◌, ◌+◌, ◌<◌, ◌≤◌, ◌∷◌, [], List, length, MatchOption, IfOk, IfSome};
ghost use Rattle.std.specs.List.{position_or_len};
ghost use Rattle.std.specs.Option.{ForSome};
ghost use Rattle.text_scan.specs.Gives.{Gives};
ghost use Rattle.line_text.specs.Answers.{GivesText, IsFaultWithin};
ghost use Rattle.line_text.specs.Numbers.{count};
ghost use Rattle.line_text.specs.Parts.{Part, cut_at, fields};
ghost use Rattle.line_text.specs.Spans.{part_of, stop};
ghost use Rattle.cert_text.specs.Exceptions.{is_colon, exception, exceptions};

use crate::certs::{CertException, CertExceptions};
use bud_base::TextFault;
use line_text::{Reading, Span, next_field, whole_number};
use std::alloc::Global;
use text_scan::lesser_of;

/// How many bytes stand before the first colon.
#[inline]
fn colon_place(field: &[u8]) -> usize
    ensures first { result ≡ position_or_len is_colon field.now }
    ensures within { result ≤ length field.now }
{
    for (i, byte) in field.iter().enumerate() {
        if *byte == b':' {
            return i;
        }
    }
    field.len()
}

/// What stands before the first colon and behind it, if there is one.
#[inline]
fn halves(field: Span<'_>) -> Option<(Span<'_>, Span<'_>)>
    ensures parts { MatchOption result (cut_at is_colon (part_of field.entry) ≡ part_of field.entry ∷ [])
        (λ r. cut_at is_colon (part_of field.entry) ≡ part_of r.0 ∷ cut_at is_colon (part_of r.1)) }
    ensures first { IfSome result (λ r. r.0.at ≡ field.entry.at) }
    ensures behind { IfSome result (λ r. (field.entry.at ≤ r.1.at) × (stop r.1 ≡ stop field.entry)) }
{
    let place = colon_place(field.bytes);
    if place == field.bytes.len() {
        return None;
    }
    let first = Span {
        bytes: &field.bytes[..place],
        at: field.at,
    };
    let behind = Span {
        bytes: &field.bytes[place + 1..],
        at: field.at + place + 1,
    };
    Some((first, behind))
}

/// The part as a number from 0 to 2^32 - 1, and the least breach.
#[inline]
#[tactic(auto, unfolding(line_text::specs::Numbers::count, line_text::specs::Numbers::whole))]
fn part_count(part: Reading<'_>) -> Option<(u32, Option<usize>)>
    ensures read { (rest : List Part) → Gives (λ r. (r.0, (rest, r.1))) result (count 0 4294967295 (part_of part.entry.rest ∷ rest, part.entry.breach)) }
    ensures within { IfSome result (λ r. ForSome r.1 (λ at. at ≤ part.entry.rest.at)) }
{
    let number = whole_number(part.rest.bytes)?;
    if 0 <= number && number <= i64::from(u32::MAX) {
        return Some((number as u32, part.breach));
    }
    Some((0, lesser_of(part.breach, Some(part.rest.at))))
}

/// The parts before and behind a colon as an exception with its steps, and the least breach.
#[inline]
fn numbers(
    breach: Option<usize>,
    first: Span<'_>,
    behind: Span<'_>,
) -> Option<(CertException, Option<usize>)>
    requires passed { ForSome breach (λ at. at ≤ first.at) }
    requires order { first.at ≤ behind.at }
    ensures read { (field : Part) → cut_at is_colon field ≡ part_of first.entry ∷ cut_at is_colon (part_of behind.entry)
        → Gives (λ r. r) result (exception field breach) }
    ensures within { IfSome result (λ r. ForSome r.1 (λ at. at ≤ stop behind.entry)) }
{
    let Some((number, breach)) = part_count(Reading {
        rest: first,
        breach,
    }) else {
        return None;
    };
    match halves(behind) {
        Some(_) => None,
        None => match part_count(Reading {
            rest: behind,
            breach,
        }) {
            Some((steps, breach)) => {
                let steps = Some(steps);
                Some((CertException { number, steps }, breach))
            }
            None => None,
        },
    }
}

/// The field as an exception `N` or `N:S`, and the least breach.
#[inline]
fn exception(field: Reading<'_>) -> Option<(CertException, Option<usize>)>
    ensures read { Gives (λ r. r) result (exception (part_of field.entry.rest) field.entry.breach) }
    ensures within { IfSome result (λ r. ForSome r.1 (λ at. at ≤ stop field.entry.rest)) }
{
    match halves(field.rest) {
        Some((first, behind)) => numbers(field.breach, first, behind),
        None => match part_count(field) {
            Some((number, breach)) => {
                let steps = None;
                Some((CertException { number, steps }, breach))
            }
            None => None,
        },
    }
}

/// All the fields that are left, each an exception, and the least breach.
pub fn exceptions(
    alloc: Global,
    line: Reading<'_>,
) -> Result<(CertExceptions, Option<usize>), TextFault>
    ensures read { GivesText (λ r. r) result (exceptions (fields (part_of line.entry.rest)) line.entry.breach) }
    ensures fault { IsFaultWithin (stop line.entry.rest) result }
    ensures within { IfOk result (λ r. ForSome r.1 (λ at. at ≤ stop line.entry.rest)) }
{
    let mut list = Vec::new(alloc);
    let mut rest = line.rest;
    let mut breach = line.breach;
    while let Some((field, behind)) = next_field(rest) {
        let Some((found, least)) = exception(Reading {
            rest: field,
            breach,
        }) else {
            return Err(TextFault::Syntax(field.at));
        };
        if list.push(found).is_err() {
            return Err(TextFault::NoMemory);
        }
        rest = behind;
        breach = least;
    }
    Ok((CertExceptions::from_vec(list), breach))
}
