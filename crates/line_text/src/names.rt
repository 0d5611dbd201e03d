ghost use Rattle.std.specs.Prelude.{◌≡◌, ◌≤◌, ◌+◌, length, vec_len, IfOk};
ghost use Rattle.std.specs.Option.{ForSome};
ghost use Rattle.line_text.specs.Answers.{GivesText, IsFaultWithin};
ghost use Rattle.line_text.specs.Names.{is_name, name, counts};
ghost use Rattle.line_text.specs.Parts.{fields};
ghost use Rattle.line_text.specs.Readings.{fields_left, GoesOn};
ghost use Rattle.line_text.specs.Spans.{part_of, stop};

use crate::numbers::count;
use crate::parts::next_field;
use crate::readings::Reading;
use bud_base::{Listed, Text, TextFault};
use std::alloc::Global;

#[inline]
fn is_name(field: &[u8]) -> bool
    ensures { result ≡ is_name field.now }
{
    field.iter().all(|byte| *byte < 128)
}

/// The next field as a name, which has no byte past 127.
#[tactic(auto, unfolding(crate::specs::Names::name))]
pub fn name<'a>(alloc: Global, line: Reading<'a>) -> Result<(Text, Reading<'a>), TextFault>
    ensures read { GivesText (λ r. (r.0, fields_left r.1)) result (name (fields_left line.entry)) }
    ensures within { IsFaultWithin (stop line.entry.rest) result }
    ensures on { IfOk result (λ r. GoesOn line.entry r.1) }
{
    let Some((field, rest)) = next_field(line.rest) else {
        return Err(TextFault::Syntax(line.rest.at));
    };
    if !is_name(field.bytes) {
        return Err(TextFault::Syntax(field.at));
    }
    match Vec::from_slice(alloc, field.bytes) {
        Ok(bytes) => Ok((
            Text::from_vec(bytes),
            Reading {
                rest,
                breach: line.breach,
            },
        )),
        Err(_) => Err(TextFault::NoMemory),
    }
}

/// All the fields that are left, each a whole number from `least` to `most` as `count` reads it, and the least breach.
pub fn counts(
    alloc: Global,
    line: Reading<'_>,
    least: u32,
    most: u32,
) -> Result<(Listed<u32>, Option<usize>), TextFault>
    requires { least ≤ most }
    ensures read { GivesText (λ r. r) result (counts least most (fields (part_of line.entry.rest)) line.entry.breach) }
    ensures fault { IsFaultWithin (stop line.entry.rest) result }
    ensures within { IfOk result (λ r. ForSome r.1 (λ at. at ≤ stop line.entry.rest)) }
{
    let mut numbers = Vec::new(alloc);
    let mut left = line;
    while let Some((field, _)) = next_field(left.rest) {
        let Some((number, behind)) = count(left, least, most) else {
            return Err(TextFault::Syntax(field.at));
        };
        if numbers.push(number).is_err() {
            return Err(TextFault::NoMemory);
        }
        left = behind;
    }
    Ok((Listed::from_vec(numbers), left.breach))
}
