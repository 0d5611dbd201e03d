ghost use Rattle.std.specs.Prelude.{◌≡◌, ◌+◌, ◌<◌, ◌≤◌, ◌++◌, ◌^◌, ℕ, List, length, Ok, OnOk, IfOk};
ghost use Rattle.tcl_words.specs.Commands.{kept, Splits, IsCommandsAnswer, AreBracketWords, IsBracketAnswer, UnlessMemory, IsSyntax, IsFaultWithin, AreCommandsOf, AreWordsOf};
ghost use Rattle.tcl_words.specs.Answers.{IsSplitAnswer, IsBracketsAnswer};
ghost use Rattle.tcl_words.specs.declared.words.Word.{Word as Item};

use crate::characters::{Scope, next_character};
use crate::readers::{line, words};
use crate::words::{Command, CommandList, TclFault};
use std::alloc::{AllocError, Global};

/// Adds a command that has a word.
fn keep(commands: &mut Vec<Command>, words: Command) -> Result<(), AllocError>
    ensures { OnOk result (commands.new.items ≡ commands.old.items ++ kept words) }
{
    if words.is_empty() {
        return Ok(());
    }
    commands.push(words)?;
    Ok(())
}

/// The commands of the text, line by line.
fn split(alloc: Global, text: &[u8]) -> Result<CommandList, TclFault>
    ensures { IsSplitAnswer text.now result }
{
    let mut commands = Vec::new(alloc);
    let mut at = 0;
    'lines: loop {
        let (words, end) = line(alloc, text, at)?;
        if keep(&mut commands, words).is_err() {
            return Err(TclFault::NoMemory);
        }
        let Some((_, behind)) = next_character(text, end) else {
            return Ok(CommandList::from_vec(commands));
        };
        at = behind;
    }
}

/// The words of the text of a word in brackets.
fn split_brackets(alloc: Global, text: &[u8], at: usize) -> Result<Command, TclFault>
    requires { at + length text.now < 2 ^ 63 }
    ensures { IsBracketsAnswer at text.now result }
{
    let (words, end) = words(alloc, text, at, 0, Scope::Brackets)?;
    if end < text.len() {
        return Err(TclFault::Syntax(at + end));
    }
    Ok(words)
}

/// Splits a Tcl text into commands and their words; a command without words, and a comment, are none.
///
/// A line feed or `;` ends a command outside quotes, braces and brackets. A backslash before a line feed is white space.
/// `#` in a command's place begins a comment up to the next line feed. Syntax comes where the text isn't made of words,
/// with an offset within the text. It takes one pass over the text, and memory for the words alone.
pub fn commands(alloc: Global, text: &[u8]) -> Result<CommandList, TclFault>
    requires { length text.now < 2 ^ 31 }
    // What each answer says of the text.
    ensures answer { IsCommandsAnswer text.now result }
    // A text that splits is split, into its one list of commands.
    ensures splits { (all : List (List Item)) → Splits text.now all → UnlessMemory result (result ≡ Ok all) }
    // One that doesn't is refused.
    ensures malformed { ((all : List (List Item)) → Splits text.now all → ⊥) → UnlessMemory result (IsSyntax result) }
    ensures within { IsFaultWithin (length text.now) result }
    ensures parts { IfOk result (AreCommandsOf (length text.now)) }
{
    split(alloc, text)
}

/// Splits the text of a word in brackets, which begins at the offset `at` of a larger text: its words, with their offsets
/// in the larger text. In brackets a line feed is white space, `;` and `#` are characters like others, and nested
/// brackets are words.
///
/// Syntax comes where the text isn't made of words; it never comes for a word that `commands` or `bracket_words` gave,
/// by the clause `parts` of these.
pub fn bracket_words(alloc: Global, text: &[u8], at: usize) -> Result<Command, TclFault>
    requires { at + length text.now < 2 ^ 63 }
    ensures answer { IsBracketAnswer at text.now result }
    ensures splits { (all : List Item) → AreBracketWords at text.now all → UnlessMemory result (result ≡ Ok all) }
    ensures malformed { ((all : List Item) → AreBracketWords at text.now all → ⊥) → UnlessMemory result (IsSyntax result) }
    ensures within { IsFaultWithin (at + length text.now) result }
    ensures parts { IfOk result (AreWordsOf (at + length text.now)) }
{
    split_brackets(alloc, text, at)
}

/// A text has at most one list of commands, and the text of a word in brackets one list of words.
pub fn one_splitting()
    ensures commands { (text : List ℕ) (a b : List (List Item)) → Splits text a → Splits text b → a ≡ b }
    ensures words { (text : List ℕ) (at : ℕ) (a b : List Item) → AreBracketWords at text a → AreBracketWords at text b → a ≡ b }
{}
