ghost use Rattle.std.specs.Prelude.{◌≡◌, ◌<◌, ◌≤◌, ◌^◌, ℕ, List, length, IfOk, IfSome, None, All};
ghost use Rattle.bud_syntax.specs.Ranges.{IsReadKind};
ghost use Rattle.text_scan.specs.Gives.{Gives};
ghost use Rattle.line_text.specs.Answers.{GivesText, IsFaultWithin};
ghost use Rattle.line_text.specs.Spans.{stop};
ghost use Rattle.bud_syntax.specs.declared.delays.SdfFile.{SdfFile};
ghost use Rattle.sdf_lex.specs.Tokens.{tokens_of};
ghost use Rattle.sdf_reader.specs.Lefts.{tokens_left, Advances};
ghost use Rattle.sdf_reader.specs.Settings.{set_of};
ghost use Rattle.sdf_reader.specs.LeftOut as out;
ghost use Rattle.sdf_reader.specs.Files.{front, file, Reads, IsBreached, IsMalformed, IsLeftOut};
ghost use Rattle.sdf_reader.specs.Answers.{IsReadAnswer, UnlessMemory, IsSyntax, IsRefusal};

use crate::cells::Cells;
use crate::contexts::Context;
use crate::faults::SdfFault;
use crate::headers::{Heads, headers};
use crate::left_out::first_left_out;
use crate::marks::{closing, opened, token};
use crate::rows::{copied, many};
use crate::settings::Settings;
use bud_base::TextFault;
use bud_syntax::{SdfFile, SdfRows};
use line_text::{Reading, Span};
use std::alloc::Global;

/// The beginning of a file, with its headers.
#[tactic(auto, unfolding(crate::specs::Files::front))]
fn read_front(left: Reading<'_>) -> Option<Heads<'_>>
    ensures read { Gives (λ r. (set_of r.settings, tokens_left r.left)) result (front (tokens_left left.entry)) }
    ensures on { IfSome result (λ r. Advances left.entry r.left) }
{
    let left = opened(b"DELAYFILE", left)?;
    let settings = Settings {
        divider: b'.',
        unit: 1000,
    };
    headers(Heads { settings, left })
}

/// The delay file in the loose form, and its least breach.
#[tactic(auto, unfolding(crate::specs::Files::file, crate::specs::Names::printed_from))]
fn read_left(alloc: Global, left: Reading<'_>) -> Result<(SdfFile, Option<usize>), TextFault>
    ensures read { GivesText (λ r. r) result (file (tokens_left left.entry)) }
    ensures fault { IsFaultWithin (stop left.entry.rest) result }
    ensures size { IfOk result (λ r. length r.0.rows ≤ length (tokens_left left.entry).0) }
{
    let Some(heads) = read_front(left) else {
        return Err(TextFault::Syntax(left.rest.at));
    };
    let context = Context {
        divider: heads.settings.divider,
        unit: heads.settings.unit,
        cell: &[],
        instance: &[],
    };
    let (rows, rest) = many::<Cells>(alloc, context, SdfRows::new(alloc), heads.left)?;
    let Some(end) = closing(rest) else {
        return Err(TextFault::Syntax(rest.rest.at));
    };
    match token(end) {
        Some((lexeme, _)) => Err(TextFault::Syntax(lexeme.span.at)),
        None => Ok((SdfFile { rows }, end.breach)),
    }
}

/// The delay file in the loose form, and its least breach.
fn read_loosely(alloc: Global, text: &[u8]) -> Result<(SdfFile, Option<usize>), TextFault>
    requires { length text.now < 2 ^ 31 }
    ensures read { GivesText (λ r. r) result (file (tokens_of text.now, None)) }
    ensures fault { IsFaultWithin (length text.now) result }
    ensures size { IfOk result (λ r. length r.0.rows ≤ length text.now) }
{
    read_left(alloc, Reading::new(text))
}

/// Why a text that isn't in the loose form is refused: for what is left out, or else as malformed at this offset.
fn refusal(alloc: Global, text: &[u8], at: usize) -> SdfFault
    requires { length text.now < 2 ^ 31 }
    ensures { IsRefusal text.now at result }
{
    match first_left_out(Reading::new(text).rest) {
        Some(lexeme) => match copied(alloc, lexeme.span.bytes) {
            Ok(word) => SdfFault::Unsupported(word, lexeme.span.at),
            Err(_) => SdfFault::NoMemory,
        },
        None => SdfFault::Syntax(at),
    }
}

/// The delay file, where all its numbers are in their ranges.
fn read_in_ranges(alloc: Global, text: &[u8]) -> Result<SdfFile, SdfFault>
    requires { length text.now < 2 ^ 31 }
    ensures answer { IsReadAnswer text.now result }
    ensures size { IfOk result (λ value. length value.rows ≤ length text.now) }
{
    match read_loosely(alloc, text) {
        Ok((value, None)) => Ok(value),
        Ok((_, Some(at))) => Err(SdfFault::Value(at)),
        Err(TextFault::Syntax(at)) => Err(refusal(alloc, text, at)),
        Err(TextFault::Value(at)) => Err(SdfFault::Syntax(at)),
        Err(TextFault::NoMemory) => Err(SdfFault::NoMemory),
    }
}

/// Reads a delay file (IEEE 1497): for each cell a row Cell, then its delays, the delays of its wires and its setup
/// checks, in the order of the text. Names are in printed form and relative to the cell's instance; values are in whole
/// ps, rounded up, and the greatest of an entry's values counts.
///
/// Value comes where the text is in the grammar but for numbers of values that pass 10^9 ps either way, with the offset
/// of the first such number. Else Unsupported comes where a part of the standard that is left out begins, with its first
/// word, and otherwise Syntax, with an offset within the text. It takes one pass over the text, or two where it is
/// refused, and memory for the rows alone.
#[tactic(auto, using(crate::proofs::RangeLemmas::ranges_of))]
pub fn read_sdf(alloc: Global, text: &[u8]) -> Result<SdfFile, SdfFault>
    requires { length text.now < 2 ^ 31 }
    // What each answer says of the text.
    ensures answer { IsReadAnswer text.now result }
    // A text in the grammar is read, with its one value.
    ensures reads { (value : SdfFile) → Reads text.now value → UnlessMemory result (result ≡ Ok value) }
    // One with a number out of its range is refused for it.
    ensures breached { (at : ℕ) → IsBreached text.now at → UnlessMemory result (result ≡ Err (SdfFault.Value at)) }
    // One of another form is refused for the first word of a part that is left out.
    ensures unsupported { (word : List ℕ) (at : ℕ) → IsMalformed text.now → IsLeftOut text.now word at → UnlessMemory result (result ≡ Err (SdfFault.Unsupported word at)) }
    // Without such a word it is refused as malformed.
    ensures malformed { IsMalformed text.now → out.first_left_out (tokens_of text.now) ≡ None → UnlessMemory result (IsSyntax result) }
    ensures size { IfOk result (λ value. length value.rows ≤ length text.now) }
    // The values of entries lie in their range.
    ensures ranges { IfOk result (λ value. All (λ row. IsReadKind row.kind) value.rows) }
{
    read_in_ranges(alloc, text)
}
