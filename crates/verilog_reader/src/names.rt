ghost use Rattle.std.specs.Prelude.{◌≡◌, IfOk};
ghost use Rattle.verilog_reader.specs.Names.{is_identifier, name_of, id};
ghost use Rattle.verilog_reader.specs.Answers.{GivesRead};
ghost use Rattle.verilog_reader.specs.Readings.{left_of, word_seen, IsShorter};

use crate::left::{copied, next_word};
use crate::readings::{Reading, Stop};
use crate::spellings::Spelling;
use crate::trees::Named;
use std::alloc::Global;
use verilog_lex::Kind;
use verilog_words::is_reserved;

/// Whether the word is an identifier.
#[inline]
fn is_identifier(word: Spelling<'_>) -> bool
    ensures { result ≡ is_identifier (word_seen word.entry) }
{
    match word.kind {
        Kind::Escaped => true,
        Kind::Name => !is_reserved(word.bytes),
        _ => false,
    }
}

/// The name of an identifier, without the backslash of an escaped one.
#[inline]
fn name_of<'a>(word: Spelling<'a>) -> &'a [u8]
    ensures { result.now ≡ name_of (word_seen word.entry) }
{
    match word.kind {
        Kind::Escaped => &word.bytes[word.bytes.len().min(1)..],
        _ => word.bytes,
    }
}

/// An identifier.
#[tactic(auto, unfolding(crate::specs::Names::id))]
pub fn id<'a>(alloc: Global, left: Reading<'a>) -> Result<(Named, Reading<'a>), Stop>
    ensures read { GivesRead (λ r. (r.0, left_of r.1)) result (id (left_of left.entry)) }
    ensures on { IfOk result (λ r. IsShorter left.entry r.1) }
{
    let (word, rest) = next_word(left)?;
    if !is_identifier(word) {
        return Err(Stop::Syntax(word.at));
    }
    let name = copied(alloc, name_of(word))?;
    Ok((Named { name, at: word.at }, rest))
}
