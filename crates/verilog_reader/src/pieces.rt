ghost use Rattle.std.specs.Prelude.{◌≡◌, IfOk};
ghost use Rattle.verilog_reader.specs.Left.{begins};
ghost use Rattle.verilog_reader.specs.Pieces.{select_end, select, net, piece, is_number};
ghost use Rattle.verilog_reader.specs.Answers.{GivesRead};
ghost use Rattle.verilog_reader.specs.Readings.{left_of, IsShorter};

use crate::constants::constant;
use crate::left::first_word;
use crate::names::id;
use crate::numbers::num;
use crate::readings::{Reading, Stop};
use crate::words::{begins_sign, sign};
use bud_base::Text;
use bud_syntax::Piece;
use std::alloc::Global;
use verilog_lex::Kind;

/// What stands behind the first number in brackets.
#[tactic(auto, unfolding(crate::specs::Pieces::select_end))]
fn select_end<'a>(name: Text, first: u32, left: Reading<'a>) -> Result<(Piece, Reading<'a>), Stop>
    ensures read { GivesRead (λ r. (r.0, left_of r.1)) result (select_end name first (left_of left.entry)) }
    ensures on { IfOk result (λ r. IsShorter left.entry r.1) }
{
    if begins_sign(left, b':') {
        let rest = sign(left, b':')?;
        let (last, rest) = num(rest)?;
        let rest = sign(rest, b']')?;
        return Ok((Piece::Part(name, first, last), rest));
    }
    let rest = sign(left, b']')?;
    Ok((Piece::Bit(name, first), rest))
}

/// A bit or a part of a net, in brackets.
#[tactic(auto, unfolding(crate::specs::Pieces::select))]
fn select<'a>(name: Text, left: Reading<'a>) -> Result<(Piece, Reading<'a>), Stop>
    ensures read { GivesRead (λ r. (r.0, left_of r.1)) result (select name (left_of left.entry)) }
    ensures on { IfOk result (λ r. IsShorter left.entry r.1) }
{
    let rest = sign(left, b'[')?;
    let (first, rest) = num(rest)?;
    select_end(name, first, rest)
}

/// A net, a bit of it or a part of it.
#[tactic(auto, unfolding(crate::specs::Pieces::net))]
fn net<'a>(alloc: Global, left: Reading<'a>) -> Result<(Piece, Reading<'a>), Stop>
    ensures read { GivesRead (λ r. (r.0, left_of r.1)) result (net (left_of left.entry)) }
    ensures on { IfOk result (λ r. IsShorter left.entry r.1) }
{
    let (named, rest) = id(alloc, left)?;
    if begins_sign(rest, b'[') {
        return select(named.name, rest);
    }
    Ok((Piece::Net(named.name), rest))
}

/// Whether the next word is a number.
#[inline]
fn begins_number(left: Reading<'_>) -> bool
    ensures { result ≡ begins is_number (left_of left.entry) }
{
    match first_word(left) {
        Some((word, _)) => match word.kind {
            Kind::Number => true,
            _ => false,
        },
        None => false,
    }
}

/// An expression that isn't a concatenation.
#[tactic(auto, unfolding(crate::specs::Pieces::piece))]
pub fn piece<'a>(alloc: Global, left: Reading<'a>) -> Result<(Piece, Reading<'a>), Stop>
    ensures read { GivesRead (λ r. (r.0, left_of r.1)) result (piece (left_of left.entry)) }
    ensures on { IfOk result (λ r. IsShorter left.entry r.1) }
{
    if begins_number(left) {
        return constant(left);
    }
    net(alloc, left)
}
