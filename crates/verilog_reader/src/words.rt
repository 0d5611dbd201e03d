ghost use Rattle.std.specs.Prelude.{◌≡◌, IfOk};
ghost use Rattle.verilog_reader.specs.Left.{begins};
ghost use Rattle.verilog_reader.specs.Words.{is_sign, is_word, sign, title};
ghost use Rattle.verilog_reader.specs.Answers.{GivesRead};
ghost use Rattle.verilog_reader.specs.Readings.{left_of, word_seen, IsShorter};

use crate::left::{first_word, next_word};
use crate::readings::{Reading, Stop};
use crate::spellings::Spelling;
use verilog_lex::Kind;

/// Whether the word is this sign.
#[inline]
pub fn is_sign(word: Spelling<'_>, sign: u8) -> bool
    ensures { result ≡ is_sign sign (word_seen word.entry) }
{
    match word.kind {
        Kind::Sign => word.bytes == [sign].as_slice(),
        _ => false,
    }
}

/// Whether the word is this word of the language.
#[inline]
pub fn is_word(word: Spelling<'_>, title: &[u8]) -> bool
    ensures { result ≡ is_word title.now (word_seen word.entry) }
{
    match word.kind {
        Kind::Name => word.bytes == title,
        _ => false,
    }
}

/// Whether the next word is this sign.
#[inline]
pub fn begins_sign(left: Reading<'_>, sign: u8) -> bool
    ensures { result ≡ begins (is_sign sign) (left_of left.entry) }
{
    match first_word(left) {
        Some((word, _)) => is_sign(word, sign),
        None => false,
    }
}

/// Whether the next word is this word of the language.
#[inline]
pub fn begins_word(left: Reading<'_>, title: &[u8]) -> bool
    ensures { result ≡ begins (is_word title.now) (left_of left.entry) }
{
    match first_word(left) {
        Some((word, _)) => is_word(word, title),
        None => false,
    }
}

/// What is left behind this sign.
#[inline]
#[tactic(auto, unfolding(crate::specs::Words::sign))]
pub fn sign<'a>(left: Reading<'a>, expected: u8) -> Result<Reading<'a>, Stop>
    ensures read { GivesRead (λ r. left_of r) result (sign expected (left_of left.entry)) }
    ensures on { IfOk result (IsShorter left.entry) }
{
    let (word, rest) = next_word(left)?;
    if is_sign(word, expected) {
        Ok(rest)
    } else {
        Err(Stop::Syntax(word.at))
    }
}

/// What is left behind this word of the language.
#[inline]
#[tactic(auto, unfolding(crate::specs::Words::title))]
pub fn title<'a>(left: Reading<'a>, expected: &[u8]) -> Result<Reading<'a>, Stop>
    ensures read { GivesRead (λ r. left_of r) result (title expected.now (left_of left.entry)) }
    ensures on { IfOk result (IsShorter left.entry) }
{
    let (word, rest) = next_word(left)?;
    if is_word(word, expected) {
        Ok(rest)
    } else {
        Err(Stop::Syntax(word.at))
    }
}
