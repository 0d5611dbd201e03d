ghost use Rattle.std.specs.Prelude.{◌≡◌, IfOk};
ghost use Rattle.verilog_reader.specs.Left.{breached};
ghost use Rattle.verilog_reader.specs.Numbers.{value_up_to, number, num, range, maybe_range};
ghost use Rattle.verilog_reader.specs.Answers.{GivesRead};
ghost use Rattle.verilog_reader.specs.Readings.{left_of, word_seen, IsShorter, IsNoLonger};

use crate::left::next_word;
use crate::readings::{Reading, Stop};
use crate::spellings::Spelling;
use crate::words::{begins_sign, sign};
use bud_syntax::Range;
use text_scan::lesser_of;
use verilog_lex::Kind;

/// The greatest number in brackets.
const MOST: u32 = 1000000;

/// What the digits stand for, or one more than the greatest number in brackets where that is less.
#[inline]
pub fn value_up_to(digits: &[u8]) -> u32
    ensures { result ≡ value_up_to digits.now }
{
    let mut value: u32 = 0;
    for digit in digits {
        value = (value * 10 + u32::from(digit.saturating_sub(b'0'))).min(MOST + 1);
    }
    value
}

/// What is left, with a breach at this offset.
#[inline]
pub fn breached<'a>(left: Reading<'a>, at: usize) -> Reading<'a>
    ensures left { left_of result ≡ breached at (left_of left.entry) }
    ensures on { IsNoLonger left.entry result }
{
    Reading {
        text: left.text,
        tokens: left.tokens,
        leaf: left.leaf,
        breach: lesser_of(left.breach, Some(at)),
    }
}

/// A number, as a word.
#[inline]
#[tactic(auto, unfolding(crate::specs::Numbers::number))]
pub fn number<'a>(left: Reading<'a>) -> Result<(Spelling<'a>, Reading<'a>), Stop>
    ensures read { GivesRead (λ r. (word_seen r.0, left_of r.1)) result (number (left_of left.entry)) }
    ensures on { IfOk result (λ r. IsShorter left.entry r.1) }
{
    let (word, rest) = next_word(left)?;
    match word.kind {
        Kind::Number => Ok((word, rest)),
        _ => Err(Stop::Syntax(word.at)),
    }
}

/// A number in brackets; one past 1,000,000 is a breach.
#[inline]
#[tactic(auto, unfolding(crate::specs::Numbers::num))]
pub fn num<'a>(left: Reading<'a>) -> Result<(u32, Reading<'a>), Stop>
    ensures read { GivesRead (λ r. (r.0, left_of r.1)) result (num (left_of left.entry)) }
    ensures on { IfOk result (λ r. IsShorter left.entry r.1) }
{
    let (word, rest) = number(left)?;
    let value = value_up_to(word.bytes);
    if value <= MOST {
        return Ok((value, rest));
    }
    Ok((value, breached(rest, word.at)))
}

/// The bounds of a vector.
#[tactic(auto, unfolding(crate::specs::Numbers::range))]
fn range<'a>(left: Reading<'a>) -> Result<(Range, Reading<'a>), Stop>
    ensures read { GivesRead (λ r. (r.0, left_of r.1)) result (range (left_of left.entry)) }
    ensures on { IfOk result (λ r. IsShorter left.entry r.1) }
{
    let rest = sign(left, b'[')?;
    let (first, rest) = num(rest)?;
    let rest = sign(rest, b':')?;
    let (last, rest) = num(rest)?;
    let rest = sign(rest, b']')?;
    Ok((
        Range {
            left: first,
            right: last,
        },
        rest,
    ))
}

/// The bounds of a vector, or none for a scalar.
#[tactic(auto, unfolding(crate::specs::Numbers::maybe_range))]
pub fn maybe_range<'a>(left: Reading<'a>) -> Result<(Option<Range>, Reading<'a>), Stop>
    ensures read { GivesRead (λ r. (r.0, left_of r.1)) result (maybe_range (left_of left.entry)) }
    ensures on { IfOk result (λ r. IsNoLonger left.entry r.1) }
{
    if begins_sign(left, b'[') {
        let (bounds, rest) = range(left)?;
        return Ok((Some(bounds), rest));
    }
    Ok((None, left))
}
