ghost use Rattle.std.specs.Prelude.{◌≡◌, ◌≤◌, ◌+◌, ◌∷◌, [], ◌++◌, length, List, ℕ, Option, IfOk};
ghost use Rattle.line_text.specs.Answers.{GivesText, IsFaultWithin};
ghost use Rattle.line_text.specs.Spans.{part_of, stop};
ghost use Rattle.sdf_lex.specs.Tokens.{tokens};
ghost use Rattle.sdf_reader.specs.Lefts.{tokens_left, Advances, Follows};
ghost use Rattle.sdf_reader.specs.Said.{kind_of};
ghost use Rattle.sdf_reader.specs.Cells.{Scope, Rows, row, many, listed};
ghost use Rattle.sdf_reader.specs.Contexts.{scope_of};
ghost use Rattle.sdf_reader.specs.Names.{printed};

use crate::contexts::Context;
use crate::marks::{begins_open, closing, opened};
use crate::names::printed;
use crate::said::{Said, kind};
use bud_base::{Text, TextFault};
use bud_syntax::{SdfRow, SdfRows};
use line_text::Reading;
use std::alloc::{AllocError, Global};

/// A copy of the bytes.
pub fn copied(alloc: Global, bytes: &[u8]) -> Result<Text, AllocError>
    ensures { IfOk result (λ text. text ≡ bytes.now) }
{
    Text::from_slice(alloc, bytes)
}

/// The row of an entry.
fn row(alloc: Global, context: Context<'_>, said: Said<'_>) -> Result<SdfRow, AllocError>
    ensures { IfOk result (λ r. r ≡ row (scope_of context.entry) (kind_of context.entry.divider said.entry)) }
{
    let cell = copied(alloc, context.cell)?;
    let instance = printed(alloc, context.divider, context.instance)?;
    let kind = kind(alloc, context.divider, said)?;
    Ok(SdfRow {
        cell,
        instance,
        kind,
    })
}

/// The rows with the one of an entry behind them.
pub fn with_row(
    alloc: Global,
    context: Context<'_>,
    rows: SdfRows,
    said: Said<'_>,
) -> Result<SdfRows, TextFault>
    ensures rows { IfOk result (λ all. all ≡ rows ++ row (scope_of context.entry) (kind_of context.entry.divider said.entry) ∷ []) }
    ensures fault { IsFaultWithin 0 result }
    ensures memory { GivesText (λ all. all) result (Option.Some (rows ++ row (scope_of context.entry) (kind_of context.entry.divider said.entry) ∷ [])) }
{
    let Ok(row) = row(alloc, context, said) else {
        return Err(TextFault::NoMemory);
    };
    let mut rows = rows;
    match rows.push(row) {
        Ok(()) => Ok(rows),
        Err(_) => Err(TextFault::NoMemory),
    }
}

/// A kind of entries, which are read as rows.
pub trait Entry {
    ghost production: { Scope → Rows → Option Rows };

    fn read<'a>(
        alloc: Global,
        context: Context<'_>,
        rows: SdfRows,
        left: Reading<'a>,
    ) -> Result<(SdfRows, Reading<'a>), TextFault>
        ensures read { GivesText (λ r. (r.0, tokens_left r.1)) result (production (scope_of context.entry) (rows, tokens_left left.entry)) }
        ensures fault { IsFaultWithin (stop left.entry.rest) result }
        ensures on { IfOk result (λ r. Advances left.entry r.1) }
        ensures size { IfOk result (λ r. length r.0 + length (tokens (part_of r.1.rest)) ≤ length rows + length (tokens (part_of left.entry.rest))) };
}

/// Any number of entries of a kind.
pub fn many<'a, E: Entry>(
    alloc: Global,
    context: Context<'_>,
    rows: SdfRows,
    left: Reading<'a>,
) -> Result<(SdfRows, Reading<'a>), TextFault>
    ensures read { GivesText (λ r. (r.0, tokens_left r.1)) result (many (E.production (scope_of context.entry)) (rows, tokens_left left.entry)) }
    ensures fault { IsFaultWithin (stop left.entry.rest) result }
    ensures on { IfOk result (λ r. Follows left.entry r.1) }
    ensures size { IfOk result (λ r. length r.0 + length (tokens (part_of r.1.rest)) ≤ length rows + length (tokens (part_of left.entry.rest))) }
{
    let mut all = rows;
    let mut rest = left;
    while begins_open(rest) {
        match E::read(alloc, context, all, rest) {
            Ok((more, behind)) => {
                all = more;
                rest = behind;
            }
            Err(fault) => return Err(fault),
        }
    }
    Ok((all, rest))
}

/// `(`, a keyword, any number of entries of a kind, and `)`.
#[tactic(auto, unfolding(crate::specs::Cells::listed))]
pub fn listed<'a, E: Entry>(
    alloc: Global,
    context: Context<'_>,
    word: &[u8],
    rows: SdfRows,
    left: Reading<'a>,
) -> Result<(SdfRows, Reading<'a>), TextFault>
    ensures read { GivesText (λ r. (r.0, tokens_left r.1)) result (listed word.now (E.production (scope_of context.entry)) (rows, tokens_left left.entry)) }
    ensures fault { IsFaultWithin (stop left.entry.rest) result }
    ensures on { IfOk result (λ r. Advances left.entry r.1) }
    ensures size { IfOk result (λ r. length r.0 + length (tokens (part_of r.1.rest)) ≤ length rows + length (tokens (part_of left.entry.rest))) }
{
    let Some(left) = opened(word, left) else {
        return Err(TextFault::Syntax(left.rest.at));
    };
    let (rows, left) = many::<E>(alloc, context, rows, left)?;
    match closing(left) {
        Some(left) => Ok((rows, left)),
        None => Err(TextFault::Syntax(left.rest.at)),
    }
}
