ghost use Rattle.std.specs.Prelude.{◌≡◌, ◌+◌, ◌≤◌, List, ℕ, length, vec_len, IfOk};
ghost use Rattle.std.specs.Option.{ForSome};
ghost use Rattle.line_text.specs.Lines.{Production, section, titled};
ghost use Rattle.line_text.specs.Answers.{GivesText, IsFaultWithin};
ghost use Rattle.line_text.specs.Readings.{fields_left, rows_left, GoesOn};
ghost use Rattle.line_text.specs.Parts.{rows};
ghost use Rattle.line_text.specs.Spans.{stop, part_of};

use crate::lines::begins;
use crate::numbers::word;
use crate::parts::next_row;
use crate::readings::Reading;
use bud_base::TextFault;
use std::alloc::Global;

/// A kind of lines whose values take memory: a title, which is the first field, and what reads the fields behind it.
pub trait OwnedLine {
    type Value: Drop;

    ghost title: { List ℕ };

    ghost production: { Production Self.Value };

    fn title() -> &'static [u8]
        ensures { result.now ≡ title };

    fn read(alloc: Global, line: Reading<'_>) -> Result<(Self::Value, Option<usize>), TextFault>
        ensures read { GivesText (λ r. r) result (production (fields_left line.entry)) }
        ensures fault { IsFaultWithin (stop line.entry.rest) result }
        ensures within { IfOk result (λ r. ForSome r.1 (λ at. at ≤ stop line.entry.rest)) };
}

/// A row as a line of this kind.
#[inline]
fn titled<L: OwnedLine>(
    alloc: Global,
    row: Reading<'_>,
) -> Result<(L::Value, Option<usize>), TextFault>
    ensures read { GivesText (λ r. r) result (titled L.title L.production (fields_left row.entry)) }
    ensures fault { IsFaultWithin (stop row.entry.rest) result }
    ensures within { IfOk result (λ r. ForSome r.1 (λ at. at ≤ stop row.entry.rest)) }
{
    match word(row, L::title()) {
        Some(line) => L::read(alloc, line),
        None => Err(TextFault::Syntax(row.rest.at)),
    }
}

/// Reads rows of this kind, as long as the next row begins with the title: their values, and the text behind them.
pub fn owned_section<'a, L: OwnedLine>(
    alloc: Global,
    text: Reading<'a>,
) -> Result<(Vec<L::Value>, Reading<'a>), TextFault>
    ensures read { GivesText (λ r. (r.0.items, rows_left r.1)) result (section L.title L.production (rows (part_of text.entry.rest)) text.entry.breach) }
    ensures within { IsFaultWithin (stop text.entry.rest) result }
    ensures on { IfOk result (λ r. GoesOn text.entry r.1) }
    ensures size { IfOk result (λ r. vec_len r.0 + length r.1.rest.bytes.now ≤ length text.entry.rest.bytes.now) }
{
    let mut values = Vec::new(alloc);
    let mut rest = text.rest;
    let mut breach = text.breach;
    while let Some((row, behind)) = next_row(rest) {
        if !begins(L::title(), row) {
            break;
        }
        let (value, least) = match titled::<L>(alloc, Reading { rest: row, breach }) {
            Ok(read) => read,
            Err(fault) => return Err(fault),
        };
        if values.push(value).is_err() {
            return Err(TextFault::NoMemory);
        }
        rest = behind;
        breach = least;
    }
    Ok((values, Reading { rest, breach }))
}
