ghost use Rattle.std.specs.Prelude.{◌≡◌, ◌<◌, ◌≤◌, ◌^◌, ℕ, List, length, IfOk, None};
ghost use Rattle.std.specs.Option.{ForSome};
ghost use Rattle.bud_base.specs.declared.problems.Problem.{Problem};
ghost use Rattle.line_text.specs.Answers.{GivesText, IsFaultWithin, UnlessMemory, IsSyntax};
ghost use Rattle.line_text.specs.Parts.{rows_of};
ghost use Rattle.problem_text.specs.Problems.{Reads, IsBreached, IsMalformed, IsReadAnswer, HasAtMost};
ghost use Rattle.problem_text.specs.Reading.{problem};

use crate::lines::{EndLine, ItemLine, Nodes, StartLine, Version};
use bud_base::{Ends, Items, Problem, Starts, TextFault};
use line_text::{Reading, Span, next_line, section, text_end};
use std::alloc::Global;

/// The problem in the loose form, and its least breach.
#[tactic(auto, unfolding(crate::specs::Reading::problem))]
fn read_loosely(alloc: Global, text: &[u8]) -> Result<(Problem, Option<usize>), TextFault>
    requires { length text.now < 2 ^ 31 }
    ensures read { GivesText (λ r. r) result (problem (rows_of text.now, None)) }
    ensures within { IsFaultWithin (length text.now) result }
    ensures breach { IfOk result (λ r. ForSome r.1 (λ at. at ≤ length text.now)) }
    ensures size { IfOk result (λ r. HasAtMost (length text.now) r.0) }
{
    let text = Reading::new(text);
    let ((), text) = next_line::<Version>(text)?;
    let (nodes, text) = next_line::<Nodes>(text)?;
    let (items, text) = section::<ItemLine>(alloc, text)?;
    let (starts, text) = section::<StartLine>(alloc, text)?;
    let (ends, text) = section::<EndLine>(alloc, text)?;
    let breach = text_end(text)?;
    let problem = Problem {
        nodes,
        items: Items::from_vec(items),
        starts: Starts::from_vec(starts),
        ends: Ends::from_vec(ends),
    };
    Ok((problem, breach))
}

/// The problem, where all its numbers are in their ranges.
fn read_in_ranges(alloc: Global, text: &[u8]) -> Result<Problem, TextFault>
    requires { length text.now < 2 ^ 31 }
    ensures answer { IsReadAnswer text.now result }
    ensures within { IsFaultWithin (length text.now) result }
    ensures size { IfOk result (HasAtMost (length text.now)) }
{
    let (problem, breach) = read_loosely(alloc, text)?;
    match breach {
        None => Ok(problem),
        Some(at) => Err(TextFault::Value(at)),
    }
}

/// Reads a problem text: the lines `problem 1` and `nodes N`, then lines `item FROM TO LEAST GREATEST WEIGHT`,
/// `start NODE OFFSET` and `end NODE REQUIRE`, in this order; times are in ps.
///
/// Syntax comes where the text isn't of this form, Value where a number is out of its range, with the offset of the
/// first such number. It takes one pass over the text, and memory for the problem alone.
pub fn read_problem(alloc: Global, text: &[u8]) -> Result<Problem, TextFault>
    requires { length text.now < 2 ^ 31 }
    // What each answer says of the text.
    ensures answer { IsReadAnswer text.now result }
    // A text in the grammar is read, with its one value.
    ensures reads { (p : Problem) → Reads text.now p → UnlessMemory result (result ≡ Ok p) }
    // One with a number out of its range is refused for it.
    ensures breached { (at : ℕ) → IsBreached text.now at → UnlessMemory result (result ≡ Err (TextFault.Value at)) }
    // One of another form is refused as that.
    ensures malformed { IsMalformed text.now → UnlessMemory result (IsSyntax result) }
    ensures within { IsFaultWithin (length text.now) result }
    ensures size { IfOk result (HasAtMost (length text.now)) }
{
    read_in_ranges(alloc, text)
}

/// A text has at most one value, and at most one least breach.
pub fn one_value()
    ensures value { (text : List ℕ) (p q : Problem) → Reads text p → Reads text q → p ≡ q }
    ensures breach { (text : List ℕ) (a b : ℕ) → IsBreached text a → IsBreached text b → a ≡ b }
    ensures apart { (text : List ℕ) (p : Problem) (at : ℕ) → Reads text p → IsBreached text at → ⊥ }
{}
