ghost use Rattle.std.specs.Prelude.{◌≡◌, ◌+◌, ◌^◌, ◌<◌, ◌++◌, ◌∷◌, [], Some, length, IfOk, IfSome, OnOk};
ghost use Rattle.text_scan.specs.Gives.{Gives};
ghost use Rattle.verilog_lex.specs.Kinds.{bytes_of};
ghost use Rattle.verilog_reader.specs.Left.{next, begins};
ghost use Rattle.verilog_reader.specs.Answers.{GivesRead};
ghost use Rattle.verilog_reader.specs.Readings.{left_of, word_seen, IsShorter};

use crate::readings::{Reading, Stop};
use crate::spellings::Spelling;
use bud_base::Text;
use std::alloc::Global;
use verilog_lex::Token;

/// The bytes of a token in its text, as many as the text has.
#[inline]
pub fn bytes_of<'a>(text: &'a [u8], token: Token) -> &'a [u8]
    ensures { result.now ≡ bytes_of text.now token }
{
    let start = token.at.min(text.len());
    let end = token.at.saturating_add(token.len).min(text.len());
    &text[start..end]
}

/// A token with its bytes in its text.
#[inline]
pub fn spelled<'a>(text: &'a [u8], token: Token) -> Spelling<'a>
    ensures kind { result.kind ≡ token.kind }
    ensures at { result.at ≡ token.at }
    ensures bytes { result.bytes.now ≡ bytes_of text.now token }
{
    Spelling {
        kind: token.kind,
        at: token.at,
        bytes: bytes_of(text, token),
    }
}

/// The next word, and what is left behind it.
#[inline]
pub fn first_word<'a>(left: Reading<'a>) -> Option<(Spelling<'a>, Reading<'a>)>
    ensures read { Gives (λ r. (word_seen r.0, left_of r.1)) result (next (left_of left.entry)) }
    ensures on { IfSome result (λ r. length r.1.tokens.now + 1 ≡ length left.entry.tokens.now) }
{
    let Reading {
        text,
        tokens,
        leaf,
        breach,
    } = left;
    let (token, tokens) = tokens.split_first()?;
    let rest = Reading {
        text,
        tokens,
        leaf,
        breach,
    };
    Some((spelled(text, *token), rest))
}

/// The next word, and what is left behind it; Syntax at the end of the text where there is none.
#[inline]
pub fn next_word<'a>(left: Reading<'a>) -> Result<(Spelling<'a>, Reading<'a>), Stop>
    ensures read { GivesRead (λ r. (word_seen r.0, left_of r.1)) result (next (left_of left.entry)) }
    ensures on { IfOk result (λ r. IsShorter left.entry r.1) }
{
    match first_word(left) {
        Some((word, rest)) => Ok((word, rest)),
        None => Err(Stop::Syntax(left.text.len())),
    }
}

/// A copy of the bytes.
pub fn copied(alloc: Global, bytes: &[u8]) -> Result<Text, Stop>
    ensures { GivesRead (λ text. text) result (Some bytes.now) }
{
    match Text::from_slice(alloc, bytes) {
        Ok(copy) => Ok(copy),
        Err(_) => Err(Stop::NoMemory),
    }
}
