ghost use Rattle.std.specs.Prelude.{◌≡◌, ◌+◌, ◌^◌, ◌<◌, ◌≤◌, ◌++◌, ◌∷◌, [], length, IfOk, OnOk};
ghost use Rattle.verilog_reader.specs.Joining.{is_done, wanted_turn, behind_turn, turn, expr, somes};
ghost use Rattle.verilog_reader.specs.Answers.{GivesRead, IsMemory};
ghost use Rattle.verilog_reader.specs.Joints.{joint_of};
ghost use Rattle.verilog_reader.specs.Readings.{left_of, IsShorter};

use crate::joints::Joint;
use crate::pieces::piece;
use crate::readings::{Reading, Stop};
use crate::words::{begins_sign, sign};
use bud_syntax::{Piece, Pieces};
use std::alloc::Global;

/// Where an expression has to come: a brace that opens, or a piece.
#[tactic(auto, unfolding(crate::specs::Joining::wanted_turn))]
fn wanted_turn<'a>(
    alloc: Global,
    depth: usize,
    left: Reading<'a>,
) -> Result<(Option<Piece>, Joint<'a>), Stop>
    requires { depth + length left.tokens.now < 2 ^ 63 }
    ensures read { GivesRead (λ r. (r.0, joint_of r.1)) result (wanted_turn depth (left_of left.entry)) }
    ensures on { IfOk result (λ r. IsShorter left.entry r.1.rest) }
    ensures depth { IfOk result (λ r. r.1.depth + length r.1.rest.tokens.now ≤ depth + length left.entry.tokens.now) }
{
    if begins_sign(left, b'{') {
        let rest = sign(left, b'{')?;
        let joint = Joint {
            depth: depth + 1,
            wanted: true,
            rest,
        };
        return Ok((None, joint));
    }
    let (found, rest) = piece(alloc, left)?;
    let joint = Joint {
        depth,
        wanted: false,
        rest,
    };
    Ok((Some(found), joint))
}

/// Behind an expression in braces: a comma, or the brace that closes.
#[tactic(auto, unfolding(crate::specs::Joining::behind_turn))]
fn behind_turn<'a>(depth: usize, left: Reading<'a>) -> Result<(Option<Piece>, Joint<'a>), Stop>
    ensures read { GivesRead (λ r. (r.0, joint_of r.1)) result (behind_turn depth (left_of left.entry)) }
    ensures on { IfOk result (λ r. IsShorter left.entry r.1.rest) }
    ensures depth { IfOk result (λ r. r.1.depth + length r.1.rest.tokens.now ≤ depth + length left.entry.tokens.now) }
{
    if begins_sign(left, b',') {
        let rest = sign(left, b',')?;
        let joint = Joint {
            depth,
            wanted: true,
            rest,
        };
        return Ok((None, joint));
    }
    let rest = sign(left, b'}')?;
    let joint = Joint {
        depth: depth.saturating_sub(1),
        wanted: false,
        rest,
    };
    Ok((None, joint))
}

/// One step through an expression, and the piece that it found.
fn turn<'a>(alloc: Global, joint: Joint<'a>) -> Result<(Option<Piece>, Joint<'a>), Stop>
    requires { joint.depth + length joint.rest.tokens.now < 2 ^ 63 }
    ensures read { GivesRead (λ r. (r.0, joint_of r.1)) result (turn (joint_of joint.entry)) }
    ensures on { IfOk result (λ r. IsShorter joint.entry.rest r.1.rest) }
    ensures depth { IfOk result (λ r. r.1.depth + length r.1.rest.tokens.now ≤ joint.entry.depth + length joint.entry.rest.tokens.now) }
{
    if joint.wanted {
        wanted_turn(alloc, joint.depth, joint.rest)
    } else {
        behind_turn(joint.depth, joint.rest)
    }
}

/// Whether the expression is at its end.
#[inline]
fn is_done(joint: Joint<'_>) -> bool
    ensures { result ≡ is_done (joint_of joint.entry) }
{
    joint.depth == 0 && !joint.wanted
}

/// Adds the piece, where there is one.
#[inline]
fn push_found(pieces: &mut Vec<Piece>, found: Option<Piece>) -> Result<(), Stop>
    ensures ok { OnOk result (pieces.new.items ≡ pieces.old.items ++ somes (found ∷ [])) }
    ensures stop { IsMemory result }
{
    if let Some(piece) = found {
        if pieces.push(piece).is_err() {
            return Err(Stop::NoMemory);
        }
    }
    Ok(())
}

/// An expression: its pieces, the leftmost first. Braces within braces have no meaning of their own.
#[tactic(auto, unfolding(crate::specs::Joining::expr))]
pub fn expr<'a>(alloc: Global, left: Reading<'a>) -> Result<(Pieces, Reading<'a>), Stop>
    ensures read { GivesRead (λ r. (r.0, left_of r.1)) result (expr (left_of left.entry)) }
    ensures on { IfOk result (λ r. IsShorter left.entry r.1) }
{
    let mut pieces = Vec::new(alloc);
    let mut joint = Joint {
        depth: 0,
        wanted: true,
        rest: left,
    };
    while !is_done(joint) {
        let (found, behind) = turn(alloc, joint)?;
        push_found(&mut pieces, found)?;
        joint = behind;
    }
    Ok((Pieces::from_vec(pieces), joint.rest))
}
