ghost use Rattle.std.specs.Prelude.{◌≡◌, ◌≤◌, ◌<◌, ◌+◌, [], length, IfOk, IfSome};
ghost use Rattle.text_scan.specs.Gives.{Gives};
ghost use Rattle.line_text.specs.Answers.{GivesText, IsFaultWithin};
ghost use Rattle.line_text.specs.Spans.{stop};
ghost use Rattle.sdf_reader.specs.Lefts.{tokens_left, Advances, Follows};
ghost use Rattle.sdf_reader.specs.Names.{printed};
ghost use Rattle.sdf_reader.specs.Cells as cells;
ghost use Rattle.sdf_reader.specs.Contexts.{scope_of};

use crate::checks::check;
use crate::contexts::Context;
use crate::entries::delay;
use crate::marks::{begins_word, closing, opened, starts, string};
use crate::names::name;
use crate::rows::{Entry, listed, many, with_row};
use crate::said::Said;
use bud_base::TextFault;
use bud_syntax::SdfRows;
use line_text::Reading;
use std::alloc::Global;

/// Delays.
pub struct Delays;

impl Entry for Delays {
    ghost production = { cells.delay_row };

    #[tactic(auto, unfolding(crate::specs::Cells::delay_row))]
    fn read<'a>(
        alloc: Global,
        context: Context<'_>,
        rows: SdfRows,
        left: Reading<'a>,
    ) -> Result<(SdfRows, Reading<'a>), TextFault> {
        let Some((said, rest)) = delay(context.divider, context.unit, left) else {
            return Err(TextFault::Syntax(left.rest.at));
        };
        let rows = with_row(alloc, context, rows, said)?;
        Ok((rows, rest))
    }
}

/// Timing checks.
pub struct Checks;

impl Entry for Checks {
    ghost production = { cells.check_row };

    #[tactic(auto, unfolding(crate::specs::Cells::check_row))]
    fn read<'a>(
        alloc: Global,
        context: Context<'_>,
        rows: SdfRows,
        left: Reading<'a>,
    ) -> Result<(SdfRows, Reading<'a>), TextFault> {
        let Some((said, rest)) = check(context.divider, context.unit, left) else {
            return Err(TextFault::Syntax(left.rest.at));
        };
        match said {
            Some(said) => {
                let rows = with_row(alloc, context, rows, said)?;
                Ok((rows, rest))
            }
            None => Ok((rows, rest)),
        }
    }
}

/// Lists of absolute delays.
pub struct Absolutes;

impl Entry for Absolutes {
    ghost production = { cells.absolute };

    fn read<'a>(
        alloc: Global,
        context: Context<'_>,
        rows: SdfRows,
        left: Reading<'a>,
    ) -> Result<(SdfRows, Reading<'a>), TextFault> {
        listed::<Delays>(alloc, context, b"ABSOLUTE", rows, left)
    }
}

/// The delays and the timing checks of a cell.
pub struct Timings;

impl Entry for Timings {
    ghost production = { cells.timing };

    fn read<'a>(
        alloc: Global,
        context: Context<'_>,
        rows: SdfRows,
        left: Reading<'a>,
    ) -> Result<(SdfRows, Reading<'a>), TextFault> {
        if starts(b"TIMINGCHECK", left) {
            listed::<Checks>(alloc, context, b"TIMINGCHECK", rows, left)
        } else {
            listed::<Absolutes>(alloc, context, b"DELAY", rows, left)
        }
    }
}

/// The name of an instance, if one stands next.
#[inline]
#[tactic(auto, unfolding(crate::specs::Cells::maybe_name, crate::specs::Names::printed_from))]
fn maybe_name(divider: u8, left: Reading<'_>) -> Option<(&[u8], Reading<'_>)>
    ensures read { Gives (λ r. (printed divider r.0.now, tokens_left r.1)) result (cells.maybe_name divider (tokens_left left.entry)) }
    ensures on { IfSome result (λ r. Follows left.entry r.1) }
{
    if begins_word(left) {
        name(divider, left)
    } else {
        Some((&[], left))
    }
}

/// `(CELLTYPE STRING)`
#[tactic(auto, unfolding(crate::specs::Cells::cell_type))]
fn cell_type(left: Reading<'_>) -> Option<(&[u8], Reading<'_>)>
    ensures read { Gives (λ r. (r.0.now, tokens_left r.1)) result (cells.cell_type (tokens_left left.entry)) }
    ensures on { IfSome result (λ r. Advances left.entry r.1) }
{
    let left = opened(b"CELLTYPE", left)?;
    let (cell, left) = string(left)?;
    let left = closing(left)?;
    Some((cell, left))
}

/// `(INSTANCE NAME)`
#[tactic(auto, unfolding(crate::specs::Cells::instance_of))]
fn instance_of(divider: u8, left: Reading<'_>) -> Option<(&[u8], Reading<'_>)>
    ensures read { Gives (λ r. (printed divider r.0.now, tokens_left r.1)) result (cells.instance_of divider (tokens_left left.entry)) }
    ensures on { IfSome result (λ r. Advances left.entry r.1) }
{
    let left = opened(b"INSTANCE", left)?;
    let (instance, left) = maybe_name(divider, left)?;
    let left = closing(left)?;
    Some((instance, left))
}

/// The type of a cell and the name of its instance, as in the text.
#[derive(Clone, Copy)]
struct Head<'a> {
    cell: &'a [u8],
    instance: &'a [u8],
}

/// `(CELL (CELLTYPE STRING) (INSTANCE NAME)`
#[tactic(auto, unfolding(crate::specs::Cells::cell_head))]
fn cell_head(divider: u8, left: Reading<'_>) -> Option<(Head<'_>, Reading<'_>)>
    ensures read { Gives (λ r. ((r.0.cell.now, printed divider r.0.instance.now), tokens_left r.1)) result (cells.cell_head divider (tokens_left left.entry)) }
    ensures on { IfSome result (λ r. Advances left.entry r.1) }
{
    let left = opened(b"CELL", left)?;
    let (cell, left) = cell_type(left)?;
    let (instance, left) = instance_of(divider, left)?;
    Some((Head { cell, instance }, left))
}

/// Cells.
pub struct Cells;

impl Entry for Cells {
    ghost production = { cells.cell };

    #[tactic(auto, unfolding(crate::specs::Cells::cell))]
    fn read<'a>(
        alloc: Global,
        context: Context<'_>,
        rows: SdfRows,
        left: Reading<'a>,
    ) -> Result<(SdfRows, Reading<'a>), TextFault> {
        let Some((head, rest)) = cell_head(context.divider, left) else {
            return Err(TextFault::Syntax(left.rest.at));
        };
        let inner = Context {
            divider: context.divider,
            unit: context.unit,
            cell: head.cell,
            instance: head.instance,
        };
        let rows = with_row(alloc, inner, rows, Said::Cell)?;
        let (rows, rest) = many::<Timings>(alloc, inner, rows, rest)?;
        match closing(rest) {
            Some(rest) => Ok((rows, rest)),
            None => Err(TextFault::Syntax(rest.rest.at)),
        }
    }
}
