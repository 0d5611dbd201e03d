ghost use Rattle.std.specs.Prelude.{◌≡◌, ◌+◌, ◌≤◌, List, ℕ, length, vec_len, IfOk, IfSome};
ghost use Rattle.std.specs.Option.{ForSome};
ghost use Rattle.text_scan.specs.Gives.{Gives};
ghost use Rattle.text_scan.specs.Left.{end_of};
ghost use Rattle.line_text.specs.Lines.{Production, section, line, titled, begins};
ghost use Rattle.line_text.specs.Answers.{GivesText, IsFaultWithin};
ghost use Rattle.line_text.specs.Readings.{fields_left, rows_left, GoesOn};
ghost use Rattle.line_text.specs.Parts.{fields, rows};
ghost use Rattle.line_text.specs.Spans.{stop, part_of};

use crate::numbers::word;
use crate::parts::{next_field, next_row};
use crate::readings::Reading;
use crate::spans::Span;
use bud_base::TextFault;
use std::alloc::Global;

/// A kind of lines: a title, which is the first field, and what reads the fields behind it.
pub trait Line {
    type Value: Drop;

    ghost title: { List ℕ };

    ghost production: { Production Self.Value };

    fn title() -> &'static [u8]
        ensures { result.now ≡ title };

    fn read(line: Reading<'_>) -> Option<(Self::Value, Option<usize>)>
        ensures read { Gives (λ r. r) result (production (fields_left line.entry)) }
        ensures within { IfSome result (λ r. ForSome r.1 (λ at. at ≤ stop line.entry.rest)) };
}

/// The next row, which is of this kind: its value, and the text behind it.
#[tactic(auto, unfolding(crate::specs::Lines::line))]
pub fn next_line<'a, L: Line>(text: Reading<'a>) -> Result<(L::Value, Reading<'a>), TextFault>
    ensures read { GivesText (λ r. (r.0, rows_left r.1)) result (line (titled L.title L.production) (rows_left text.entry)) }
    ensures within { IsFaultWithin (stop text.entry.rest) result }
    ensures on { IfOk result (λ r. GoesOn text.entry r.1) }
{
    let Some((row, rest)) = next_row(text.rest) else {
        return Err(TextFault::Syntax(text.rest.at));
    };
    match titled::<L>(Reading {
        rest: row,
        breach: text.breach,
    }) {
        Some((value, breach)) => Ok((value, Reading { rest, breach })),
        None => Err(TextFault::Syntax(row.at)),
    }
}

/// A row as a line of this kind.
#[inline]
fn titled<L: Line>(row: Reading<'_>) -> Option<(L::Value, Option<usize>)>
    ensures read { Gives (λ r. r) result (titled L.title L.production (fields_left row.entry)) }
    ensures within { IfSome result (λ r. ForSome r.1 (λ at. at ≤ stop row.entry.rest)) }
{
    L::read(word(row, L::title())?)
}

/// Whether the row's first field is the title.
#[inline]
pub fn begins(title: &[u8], row: Span<'_>) -> bool
    ensures { result ≡ begins title.now (fields (part_of row.entry)) }
{
    match next_field(row) {
        Some((field, _)) => field.bytes == title,
        None => false,
    }
}

/// Reads rows of this kind, as long as the next row begins with the title: their values, and the text behind them.
pub fn section<'a, L: Line>(
    alloc: Global,
    text: Reading<'a>,
) -> Result<(Vec<L::Value>, Reading<'a>), TextFault>
    ensures read { GivesText (λ r. (r.0.items, rows_left r.1)) result (section L.title L.production (rows (part_of text.entry.rest)) text.entry.breach) }
    ensures within { IsFaultWithin (stop text.entry.rest) result }
    ensures on { IfOk result (λ r. GoesOn text.entry r.1) }
    ensures size { IfOk result (λ r. vec_len r.0 + length r.1.rest.bytes.now ≤ length text.entry.rest.bytes.now) }
{
    let mut values = Vec::new(alloc);
    let mut rest = text.rest;
    let mut breach = text.breach;
    while let Some((row, behind)) = next_row(rest) {
        if !begins(L::title(), row) {
            break;
        }
        let Some((value, least)) = titled::<L>(Reading { rest: row, breach }) else {
            return Err(TextFault::Syntax(row.at));
        };
        if values.push(value).is_err() {
            return Err(TextFault::NoMemory);
        }
        rest = behind;
        breach = least;
    }
    Ok((values, Reading { rest, breach }))
}

/// The least breach of a text of which no row is left.
pub fn text_end(text: Reading<'_>) -> Result<Option<usize>, TextFault>
    ensures read { GivesText (λ breach. breach) result (end_of (rows_left text.entry)) }
    ensures within { IsFaultWithin (stop text.entry.rest) result }
    ensures breach { IfOk result (λ breach. ForSome breach (λ at. at ≤ text.entry.rest.at)) }
{
    match next_row(text.rest) {
        Some((row, _)) => Err(TextFault::Syntax(row.at)),
        None => Ok(text.breach),
    }
}
