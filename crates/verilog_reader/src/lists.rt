ghost use Rattle.std.specs.Prelude.{◌≡◌, ◌<◌, length, IfOk};
ghost use Rattle.text_scan.specs.Repeat.{repeat};
ghost use Rattle.verilog_reader.specs.Left.{Left, Production, size};
ghost use Rattle.verilog_reader.specs.Lists.{behind_comma, separated};
ghost use Rattle.verilog_reader.specs.Answers.{GivesRead};
ghost use Rattle.verilog_reader.specs.Readings.{left_of, IsShorter, IsNoLonger};

use crate::readings::{Reading, Stop};
use crate::words::{begins_sign, sign};
use std::alloc::Global;

/// What stands in a list with commas.
pub trait Part {
    type Value: Drop;

    ghost production: { Production Self.Value };

    fn read<'a>(alloc: Global, left: Reading<'a>) -> Result<(Self::Value, Reading<'a>), Stop>
        ensures read { GivesRead (λ r. (r.0, left_of r.1)) result (production (left_of left.entry)) }
        ensures on { IfOk result (λ r. IsNoLonger left.entry r.1) };
}

/// A comma, and a part of the list.
#[tactic(auto, unfolding(crate::specs::Lists::behind_comma))]
fn behind_comma<'a, P: Part>(
    alloc: Global,
    left: Reading<'a>,
) -> Result<(P::Value, Reading<'a>), Stop>
    ensures read { GivesRead (λ r. (r.0, left_of r.1)) result (behind_comma P.production (left_of left.entry)) }
    ensures on { IfOk result (λ r. IsShorter left.entry r.1) }
{
    let rest = sign(left, b',')?;
    P::read(alloc, rest)
}

/// A list of at least one part, with commas between.
pub fn separated<'a, P: Part>(
    alloc: Global,
    left: Reading<'a>,
) -> Result<(Vec<P::Value>, Reading<'a>), Stop>
    ensures read { GivesRead (λ r. (r.0.items, left_of r.1)) result (separated P.production (left_of left.entry)) }
    ensures on { IfOk result (λ r. IsNoLonger left.entry r.1) }
{
    let mut values = Vec::new(alloc);
    let (first, mut rest) = P::read(alloc, left)?;
    if values.push(first).is_err() {
        return Err(Stop::NoMemory);
    }
    while begins_sign(rest, b',') {
        let (value, behind) = behind_comma::<P>(alloc, rest)?;
        if values.push(value).is_err() {
            return Err(Stop::NoMemory);
        }
        rest = behind;
    }
    Ok((values, rest))
}
