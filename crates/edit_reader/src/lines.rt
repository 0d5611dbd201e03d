ghost use Rattle.std.specs.Prelude.{◌≡◌, ◌<◌, ◌≤◌, IfOk, IfSome, Some};
ghost use Rattle.std.specs.Option.{ForSome};
ghost use Rattle.text_scan.specs.Gives.{Gives};
ghost use Rattle.line_text.specs.Answers.{GivesText, IsFaultWithin};
ghost use Rattle.line_text.specs.Parts.{fields};
ghost use Rattle.line_text.specs.Readings.{fields_left};
ghost use Rattle.line_text.specs.Spans.{part_of, stop};
ghost use Rattle.policy_reader.specs.Lines as policy_lines;
ghost use Rattle.edit_reader.specs.Lines as lines;
ghost use Rattle.edit_reader.specs.Numbered.{line_of};
ghost use Rattle.edit_reader.specs.Reading.{IsLineAnswer};

use crate::commands::{Added, timing_command};
use crate::numbered::NumberedLine;
use crate::scripts::ScriptLine;
use bud_base::TextFault;
use bud_design::Edit;
use line_text::{Reading, Span, count, end, name, next_field, whole, word};
use policy_reader::policy_line;
use std::alloc::Global;

/// The greatest delay, in ps.
const LONGEST: i64 = 1000000000;

/// The kinds of lines behind the first but `add`.
#[derive(Clone, Copy)]
pub enum Kind {
    Plan,
    Delay,
    Drop,
    Policy,
}

/// The version that a word names.
#[inline]
fn version_of(field: &[u8]) -> Option<u32>
    ensures { result ≡ policy_lines.version_of field.now }
{
    if field == b"1".as_slice() {
        Some(1)
    } else if field == b"2".as_slice() {
        Some(2)
    } else {
        None
    }
}

/// The version of a script, whose first line is `edits 1` or `edits 2`.
#[tactic(auto, unfolding(crate::specs::Lines::header))]
pub fn header(row: Span<'_>) -> Option<u32>
    ensures { result ≡ lines.header (fields (part_of row.entry)) }
{
    let line = word(
        Reading {
            rest: row,
            breach: None,
        },
        b"edits",
    )?;
    let (field, rest) = next_field(line.rest)?;
    let version = version_of(field.bytes)?;
    let breach = line.breach;
    let _least = end(Reading { rest, breach })?;
    Some(version)
}

/// `plan`
#[tactic(auto, unfolding(crate::specs::Lines::plan))]
fn plan(line: Reading<'_>, number: u32) -> Result<(ScriptLine, Option<usize>), TextFault>
    ensures read { GivesText (λ r. r) result (lines.plan number (fields_left line.entry)) }
    ensures fault { IsFaultWithin (stop line.entry.rest) result }
    ensures within { IfOk result (λ r. ForSome r.1 (λ at. at ≤ stop line.entry.rest)) }
{
    match end(line) {
        Some(breach) => Ok((ScriptLine::Plan(number), breach)),
        None => Err(TextFault::Syntax(line.rest.at)),
    }
}

/// The last field of a line as a delay in ps.
#[tactic(auto, unfolding(crate::specs::Lines::amount))]
fn amount(line: Reading<'_>) -> Option<(i64, Option<usize>)>
    ensures read { Gives (λ r. r) result (lines.amount (fields_left line.entry)) }
    ensures within { IfSome result (λ r. ForSome r.1 (λ at. at ≤ stop line.entry.rest)) }
{
    let (amount, line) = whole(line, 0, LONGEST)?;
    Some((amount, end(line)?))
}

/// `delay FROM TO D`
#[tactic(auto, unfolding(crate::specs::Lines::delay))]
fn delay(
    alloc: Global,
    line: Reading<'_>,
    number: u32,
) -> Result<(ScriptLine, Option<usize>), TextFault>
    ensures read { GivesText (λ r. r) result (lines.delay number (fields_left line.entry)) }
    ensures fault { IsFaultWithin (stop line.entry.rest) result }
    ensures within { IfOk result (λ r. ForSome r.1 (λ at. at ≤ stop line.entry.rest)) }
{
    let (from, line) = name(alloc, line)?;
    let (to, line) = name(alloc, line)?;
    let Some((amount, breach)) = amount(line) else {
        return Err(TextFault::Syntax(line.rest.at));
    };
    let edit = Edit::Delay { from, to, amount };
    Ok((ScriptLine::Change(number, edit), breach))
}

/// The last field of a line as the number of a command.
#[tactic(auto, unfolding(crate::specs::Lines::command_number))]
fn command_number(line: Reading<'_>) -> Option<(u32, Option<usize>)>
    ensures read { Gives (λ r. r) result (lines.command_number (fields_left line.entry)) }
    ensures within { IfSome result (λ r. ForSome r.1 (λ at. at ≤ stop line.entry.rest)) }
{
    let (number, line) = count(line, 1, u32::MAX)?;
    Some((number, end(line)?))
}

/// `drop N`
#[tactic(auto, unfolding(crate::specs::Lines::dropped))]
fn dropped(line: Reading<'_>, number: u32) -> Result<(ScriptLine, Option<usize>), TextFault>
    ensures read { GivesText (λ r. r) result (lines.dropped number (fields_left line.entry)) }
    ensures fault { IsFaultWithin (stop line.entry.rest) result }
    ensures within { IfOk result (λ r. ForSome r.1 (λ at. at ≤ stop line.entry.rest)) }
{
    match command_number(line) {
        Some((command, breach)) => Ok((ScriptLine::Change(number, Edit::Drop(command)), breach)),
        None => Err(TextFault::Syntax(line.rest.at)),
    }
}

/// A line `default`, `inst` or `arc` of a policy.
#[tactic(auto, unfolding(crate::specs::Lines::appended))]
fn appended(
    alloc: Global,
    row: Reading<'_>,
    version: u32,
    number: u32,
) -> Result<(ScriptLine, Option<usize>), TextFault>
    ensures read { GivesText (λ r. r) result (lines.appended version number (fields_left row.entry)) }
    ensures fault { IsFaultWithin (stop row.entry.rest) result }
    ensures within { IfOk result (λ r. ForSome r.1 (λ at. at ≤ stop row.entry.rest)) }
{
    let (line, breach) = policy_line(alloc, row, version)?;
    Ok((ScriptLine::Change(number, Edit::Line(line)), breach))
}

/// Whether the word begins a line of a policy that a script may have.
#[inline]
fn is_policy_word(field: &[u8]) -> bool
    ensures { result ≡ lines.is_policy_word field.now }
{
    field == b"default".as_slice() || field == b"inst".as_slice() || field == b"arc".as_slice()
}

/// The kind of line that a first word begins, unless it is `add`.
#[inline]
fn kind_of(field: &[u8]) -> Option<Kind>
    ensures { result ≡ lines.kind_of field.now }
{
    if field == b"plan".as_slice() {
        Some(Kind::Plan)
    } else if field == b"delay".as_slice() {
        Some(Kind::Delay)
    } else if field == b"drop".as_slice() {
        Some(Kind::Drop)
    } else if is_policy_word(field) {
        Some(Kind::Policy)
    } else {
        None
    }
}

/// A row, and what stands behind its first word.
fn line_by(
    alloc: Global,
    row: Reading<'_>,
    line: Reading<'_>,
    version: u32,
    number: u32,
    kind: Kind,
) -> Result<(ScriptLine, Option<usize>), TextFault>
    requires { stop line.rest ≡ stop row.rest }
    ensures read { GivesText (λ r. r) result (lines.line_by version number kind (fields_left row.entry) (fields_left line.entry)) }
    ensures fault { IsFaultWithin (stop row.entry.rest) result }
    ensures within { IfOk result (λ r. ForSome r.1 (λ at. at ≤ stop row.entry.rest)) }
{
    match kind {
        Kind::Plan => plan(line, number),
        Kind::Delay => delay(alloc, line, number),
        Kind::Drop => dropped(line, number),
        Kind::Policy => appended(alloc, row, version, number),
    }
}

/// A row as a line of a script that is no `add`.
#[tactic(auto, unfolding(crate::specs::Lines::plain_line))]
fn plain_line(
    alloc: Global,
    row: Reading<'_>,
    version: u32,
    number: u32,
) -> Result<(ScriptLine, Option<usize>), TextFault>
    ensures read { GivesText (λ r. r) result (lines.plain_line version number (fields_left row.entry)) }
    ensures fault { IsFaultWithin (stop row.entry.rest) result }
    ensures within { IfOk result (λ r. ForSome r.1 (λ at. at ≤ stop row.entry.rest)) }
{
    let Some((field, rest)) = next_field(row.rest) else {
        return Err(TextFault::Syntax(row.rest.at));
    };
    let breach = row.breach;
    match kind_of(field.bytes) {
        Some(kind) => line_by(alloc, row, Reading { rest, breach }, version, number, kind),
        None => Err(TextFault::Syntax(field.at)),
    }
}

/// What stands in a line behind a field of it.
fn behind<'a>(line: Span<'a>, field: Span<'_>) -> Span<'a>
    requires order { line.at ≤ field.at }
    requires within { stop field ≤ stop line }
    ensures text { part_of result ≡ lines.behind (part_of line.entry) (part_of field.entry) }
    ensures stop { stop result ≡ stop line.entry }
{
    let at = field.at + field.bytes.len();
    Span {
        bytes: &line.bytes[at - line.at..],
        at,
    }
}

/// The line `add` with this text behind the word.
fn added(
    alloc: Global,
    text: Span<'_>,
    line: NumberedLine<'_>,
    version: u32,
) -> Result<(Option<ScriptLine>, Option<usize>), TextFault>
    requires few { stop text < 2147483648 }
    requires add { lines.IsAdd (part_of line.part) (part_of text) }
    ensures answer { IsLineAnswer version (line_of line.entry) result }
    ensures fault { IsFaultWithin (stop text.entry) result }
    ensures within { IfOk result (λ r. ForSome r.1 (λ at. at ≤ stop text.entry)) }
{
    match timing_command(alloc, text)? {
        Added::Command(command) => {
            let edit = Edit::Add(command);
            Ok((Some(ScriptLine::Change(line.number, edit)), None))
        }
        Added::OutOfRange(at) => Ok((None, Some(at))),
    }
}

/// What a line says in a script of this version, and the least offset in it of a number out of its range.
pub fn script_line(
    alloc: Global,
    line: NumberedLine<'_>,
    version: u32,
) -> Result<(Option<ScriptLine>, Option<usize>), TextFault>
    requires { stop line.part < 2147483648 }
    ensures answer { IsLineAnswer version (line_of line.entry) result }
    ensures fault { IsFaultWithin (stop line.entry.part) result }
    ensures within { IfOk result (λ r. ForSome r.1 (λ at. at ≤ stop line.entry.part)) }
{
    let Some((field, _)) = next_field(line.part) else {
        return Err(TextFault::Syntax(line.part.at));
    };
    if field.bytes == b"add".as_slice() {
        return added(alloc, behind(line.part, field), line, version);
    }
    let row = Reading {
        rest: line.part,
        breach: None,
    };
    let (said, breach) = plain_line(alloc, row, version, line.number)?;
    Ok((Some(said), breach))
}
