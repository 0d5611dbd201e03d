ghost use Rattle.std.specs.Prelude.{◌≡◌, ◌<◌, ◌≤◌, ◌+◌, ◌++◌, [], ◌^◌, ℕ, List, length, IfOk, OnOk, Ok, Err};
ghost use Rattle.std.specs.Option.{ForSome};
ghost use Rattle.line_text.specs.Answers.{IsFaultWithin, UnlessMemory, IsSyntax};
ghost use Rattle.line_text.specs.Spans.{part_of, stop};
ghost use Rattle.edit_reader.specs.Numbered.{lines_from};
ghost use Rattle.edit_reader.specs.Reading.{AreLinesAnswer, IsLooseAnswer, IsMemory};
ghost use Rattle.edit_reader.specs.Scripts.{onto, Reads, IsBreached, IsMalformed, IsReadAnswer};
ghost use Rattle.edit_reader.specs.declared.scripts.ScriptLine.{ScriptLine as Said};

use crate::lines::{header, script_line};
use crate::numbered::{Lines, next_line};
use crate::scripts::{Script, ScriptLine};
use bud_base::TextFault;
use line_text::Span;
use std::alloc::Global;
use text_scan::lesser_of;

/// Keeps what a line says.
fn keep(script: &mut Script, said: Option<ScriptLine>) -> Result<(), TextFault>
    ensures kept { OnOk result (script.new ≡ script.old ++ onto said []) }
    ensures fault { IsMemory result }
{
    let Some(line) = said else {
        return Ok(());
    };
    match script.push(line) {
        Ok(()) => Ok(()),
        Err(_) => Err(TextFault::NoMemory),
    }
}

/// The lines that are left, and the least offset of a number out of its range.
fn read_lines(
    alloc: Global,
    text: Lines<'_>,
    version: u32,
) -> Result<(Script, Option<usize>), TextFault>
    requires { stop text.rest < 2147483648 }
    ensures answer { AreLinesAnswer version (lines_from text.entry.number (part_of text.entry.rest)) result }
    ensures fault { IsFaultWithin (stop text.entry.rest) result }
    ensures breach { IfOk result (λ r. ForSome r.1 (λ at. at ≤ stop text.entry.rest)) }
    ensures size { IfOk result (λ r. length r.0 ≤ length text.entry.rest.bytes.now) }
{
    let mut script = Script::new(alloc);
    let mut rest = text;
    let mut breach = None;
    while let Some((line, behind)) = next_line(rest) {
        let (said, least) = match script_line(alloc, line, version) {
            Ok(read) => read,
            Err(fault) => return Err(fault),
        };
        match keep(&mut script, said) {
            Ok(()) => {}
            Err(fault) => return Err(fault),
        }
        rest = behind;
        breach = lesser_of(breach, least);
    }
    Ok((script, breach))
}

/// The script in the loose form, and its least breach.
fn read_loosely(alloc: Global, text: &[u8]) -> Result<(Script, Option<usize>), TextFault>
    requires { length text.now < 2 ^ 31 }
    ensures answer { IsLooseAnswer text.now result }
    ensures within { IsFaultWithin (length text.now) result }
    ensures breach { IfOk result (λ r. ForSome r.1 (λ at. at ≤ length text.now)) }
    ensures size { IfOk result (λ r. length r.0 ≤ length text.now) }
{
    let lines = Lines {
        rest: Span { bytes: text, at: 0 },
        number: 1,
    };
    let Some((first, others)) = next_line(lines) else {
        return Err(TextFault::Syntax(0));
    };
    match header(first.part) {
        Some(version) => read_lines(alloc, others, version),
        None => Err(TextFault::Syntax(first.part.at)),
    }
}

/// The script, where all its numbers are in their ranges.
fn read_in_ranges(alloc: Global, text: &[u8]) -> Result<Script, TextFault>
    requires { length text.now < 2 ^ 31 }
    ensures answer { IsReadAnswer text.now result }
    ensures within { IsFaultWithin (length text.now) result }
    ensures size { IfOk result (λ script. length script ≤ length text.now) }
{
    let (script, breach) = read_loosely(alloc, text)?;
    match breach {
        None => Ok(script),
        Some(at) => Err(TextFault::Value(at)),
    }
}

/// Reads a script of edits: the line `edits 1` or `edits 2`, then in any order lines `plan`, `delay FROM TO D`, `add COMMAND`,
/// `drop N`, and lines `default`, `inst` and `arc` of a policy of that version. D is in ps, and COMMAND, the rest of its
/// line, is one timing command in nanoseconds. Each line is given with its number in the text.
///
/// Syntax comes where the text isn't of this form, also where a command isn't; Value where a number is out of its range (D
/// from 0 to 10^9, N from 1 to 2^32 - 1, those of policies and of commands), with the offset of the first such number.
/// It takes one pass over the text, and memory for the script alone.
pub fn read_edits(alloc: Global, text: &[u8]) -> Result<Script, TextFault>
    requires { length text.now < 2 ^ 31 }
    // What each answer says of the text.
    ensures answer { IsReadAnswer text.now result }
    // A text in the grammar is read, with its one value.
    ensures reads { (script : List Said) → Reads text.now script → UnlessMemory result (result ≡ Ok script) }
    // One with a number out of its range is refused for it.
    ensures breached { (at : ℕ) → IsBreached text.now at → UnlessMemory result (result ≡ Err (TextFault.Value at)) }
    // One of another form is refused as that.
    ensures malformed { IsMalformed text.now → UnlessMemory result (IsSyntax result) }
    ensures within { IsFaultWithin (length text.now) result }
    ensures size { IfOk result (λ script. length script ≤ length text.now) }
{
    read_in_ranges(alloc, text)
}

/// A script text has at most one value, and at most one least breach.
pub fn one_script()
    ensures value { (text : List ℕ) (a b : List Said) → Reads text a → Reads text b → a ≡ b }
    ensures breach { (text : List ℕ) (a b : ℕ) → IsBreached text a → IsBreached text b → a ≡ b }
    ensures apart { (text : List ℕ) (script : List Said) (at : ℕ) → Reads text script → IsBreached text at → ⊥ }
{}
