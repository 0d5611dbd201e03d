ghost use Rattle.std.specs.Prelude.{◌≡◌, ◌<◌, ◌≤◌, ◌^◌, ℕ, List, length, vec_len, All, IfOk, Ok, Err, None};
ghost use Rattle.std.specs.Option.{ForSome};
ghost use Rattle.line_text.specs.Answers.{GivesText, IsFaultWithin, UnlessMemory, IsSyntax};
ghost use Rattle.line_text.specs.Parts.{rows, rows_of};
ghost use Rattle.line_text.specs.Spans.{part_of, stop};
ghost use Rattle.bud_design.specs.declared.policies.Policy.{Policy};
ghost use Rattle.policy_reader.specs.Policies.{Reads, IsBreached, IsMalformed, IsReadAnswer, HasRanges};
ghost use Rattle.policy_reader.specs.Reading.{all_lines, policy};

use crate::lines::{Version, policy_line};
use bud_base::TextFault;
use bud_design::{Policy, PolicyLine, PolicyLines};
use line_text::{Reading, next_line, next_row};
use std::alloc::Global;

/// The lines of all the rows that are left, and the least breach.
fn read_lines(
    alloc: Global,
    text: Reading<'_>,
    version: u32,
) -> Result<(Vec<PolicyLine>, Option<usize>), TextFault>
    ensures read { GivesText (λ r. (r.0.items, r.1)) result (all_lines version (rows (part_of text.entry.rest)) text.entry.breach) }
    ensures fault { IsFaultWithin (stop text.entry.rest) result }
    ensures breach { IfOk result (λ r. ForSome r.1 (λ at. at ≤ stop text.entry.rest)) }
    ensures size { IfOk result (λ r. vec_len r.0 ≤ length text.entry.rest.bytes.now) }
{
    let mut lines = Vec::new(alloc);
    let mut rest = text.rest;
    let mut breach = text.breach;
    while let Some((row, behind)) = next_row(rest) {
        let (line, least) = match policy_line(alloc, Reading { rest: row, breach }, version) {
            Ok(read) => read,
            Err(fault) => return Err(fault),
        };
        if lines.push(line).is_err() {
            return Err(TextFault::NoMemory);
        }
        rest = behind;
        breach = least;
    }
    Ok((lines, breach))
}

/// The policy in the loose form, and its least breach.
#[tactic(auto, unfolding(crate::specs::Reading::policy))]
fn read_loosely(alloc: Global, text: &[u8]) -> Result<(Policy, Option<usize>), TextFault>
    requires { length text.now < 2 ^ 31 }
    ensures read { GivesText (λ r. r) result (policy (rows_of text.now, None)) }
    ensures within { IsFaultWithin (length text.now) result }
    ensures breach { IfOk result (λ r. ForSome r.1 (λ at. at ≤ length text.now)) }
    ensures size { IfOk result (λ r. length r.0.lines ≤ length text.now) }
{
    let (version, text) = next_line::<Version>(Reading::new(text))?;
    let (lines, breach) = read_lines(alloc, text, version)?;
    let policy = Policy {
        version,
        lines: PolicyLines::from_vec(lines),
    };
    Ok((policy, breach))
}

/// The policy, where all its numbers are in their ranges.
fn read_in_ranges(alloc: Global, text: &[u8]) -> Result<Policy, TextFault>
    requires { length text.now < 2 ^ 31 }
    ensures answer { IsReadAnswer text.now result }
    ensures within { IsFaultWithin (length text.now) result }
    ensures size { IfOk result (λ p. length p.lines ≤ length text.now) }
{
    let (policy, breach) = read_loosely(alloc, text)?;
    match breach {
        None => Ok(policy),
        Some(at) => Err(TextFault::Value(at)),
    }
}

/// Reads a policy text: the line `policy 1` or `policy 2`, then lines `block PATH`, `default extra E weight W`,
/// `inst PATH extra E weight W` and `arc FROM TO extra E weight W` in any order. E is in ps. Under version 2 the last three
/// may end with `clock NAME`.
///
/// Syntax comes where the text isn't of this form, Value where E isn't from 0 to 10^9 or W isn't from 0 to 2^20, with the
/// offset of the first such number. It takes one pass over the text, and memory for the policy alone.
pub fn read_policy(alloc: Global, text: &[u8]) -> Result<Policy, TextFault>
    requires { length text.now < 2 ^ 31 }
    // What each answer says of the text.
    ensures answer { IsReadAnswer text.now result }
    // A text in the grammar is read, with its one value.
    ensures reads { (p : Policy) → Reads text.now p → UnlessMemory result (result ≡ Ok p) }
    // One with a number out of its range is refused for it.
    ensures breached { (at : ℕ) → IsBreached text.now at → UnlessMemory result (result ≡ Err (TextFault.Value at)) }
    // One of another form is refused as that.
    ensures malformed { IsMalformed text.now → UnlessMemory result (IsSyntax result) }
    ensures within { IsFaultWithin (length text.now) result }
    ensures size { IfOk result (λ p. length p.lines ≤ length text.now) }
    ensures ranges { IfOk result (λ p. All HasRanges p.lines) }
{
    read_in_ranges(alloc, text)
}

/// A policy text has at most one value, and at most one least breach.
pub fn one_value()
    ensures value { (text : List ℕ) (p q : Policy) → Reads text p → Reads text q → p ≡ q }
    ensures breach { (text : List ℕ) (a b : ℕ) → IsBreached text a → IsBreached text b → a ≡ b }
    ensures apart { (text : List ℕ) (p : Policy) (at : ℕ) → Reads text p → IsBreached text at → ⊥ }
{}
