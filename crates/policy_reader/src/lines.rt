ghost use Rattle.std.specs.Prelude.{◌≡◌, ◌≤◌, pos, IfOk, IfSome, codes};
ghost use Rattle.std.specs.Option.{ForSome, option_map};
ghost use Rattle.text_scan.specs.Gives.{Gives};
ghost use Rattle.text_scan.specs.Left.{end_of};
ghost use Rattle.line_text.specs.Answers.{GivesText, IsFaultWithin};
ghost use Rattle.line_text.specs.Numbers.{whole, count, word};
ghost use Rattle.line_text.specs.Readings.{fields_left, GoesOn};
ghost use Rattle.line_text.specs.Spans.{stop};
ghost use Rattle.policy_reader.specs.Lines as lines;

use bud_base::{Text, TextFault};
use bud_design::PolicyLine;
use line_text::{Line, Reading, count, end, name, next_field, whole, word};
use std::alloc::Global;

/// The most that a line adds to least delays, in ps.
const EXTRA: i64 = 1000000000;

/// The greatest weight.
const WEIGHT: u32 = 1048576;

/// The kinds of lines behind the first.
#[derive(Clone, Copy)]
enum Kind {
    Block,
    Default,
    Inst,
    Arc,
}

/// What a line gives the arcs that it names: an extra in ps and a weight, and the clock whose classes it counts for.
#[derive(Drop)]
struct Amounts {
    extra: i64,
    weight: u32,
    clock: Option<Text>,
}

/// The version that a word names.
#[inline]
fn version_of(field: &[u8]) -> Option<u32>
    ensures { result ≡ lines.version_of field.now }
{
    if field == b"1".as_slice() {
        Some(1)
    } else if field == b"2".as_slice() {
        Some(2)
    } else {
        None
    }
}

/// `policy 1` or `policy 2`
pub struct Version;

impl Line for Version {
    type Value = u32;

    ghost title = { codes "policy" };

    ghost production = { lines.version };

    fn title() -> &'static [u8] {
        b"policy"
    }

    #[inline]
    #[tactic(auto, unfolding(crate::specs::Lines::version))]
    fn read(line: Reading<'_>) -> Option<(u32, Option<usize>)> {
        let (field, rest) = next_field(line.rest)?;
        let version = version_of(field.bytes)?;
        let breach = line.breach;
        Some((version, end(Reading { rest, breach })?))
    }
}

/// The least breach of a line of which no field is left.
#[inline]
fn line_end(line: Reading<'_>) -> Result<Option<usize>, TextFault>
    ensures read { GivesText (λ breach. breach) result (end_of (fields_left line.entry)) }
    ensures fault { IsFaultWithin (stop line.entry.rest) result }
    ensures within { IfOk result (λ breach. ForSome breach (λ at. at ≤ stop line.entry.rest)) }
{
    match end(line) {
        Some(breach) => Ok(breach),
        None => Err(TextFault::Syntax(line.rest.at)),
    }
}

/// Passes the next field, where it is this word.
#[inline]
fn passed<'a>(line: Reading<'a>, expected: &[u8]) -> Result<Reading<'a>, TextFault>
    ensures read { GivesText fields_left result (word expected.now (fields_left line.entry)) }
    ensures within { IsFaultWithin (stop line.entry.rest) result }
    ensures on { IfOk result (GoesOn line.entry) }
{
    match word(line, expected) {
        Some(rest) => Ok(rest),
        None => Err(TextFault::Syntax(line.rest.at)),
    }
}

/// The next field as an extra.
#[inline]
fn extra(line: Reading<'_>) -> Result<(i64, Reading<'_>), TextFault>
    ensures read { GivesText (λ r. (r.0, fields_left r.1)) result (whole (pos 0) (pos 1000000000) (fields_left line.entry)) }
    ensures within { IsFaultWithin (stop line.entry.rest) result }
    ensures on { IfOk result (λ r. GoesOn line.entry r.1) }
{
    match whole(line, 0, EXTRA) {
        Some((n, rest)) => Ok((n, rest)),
        None => Err(TextFault::Syntax(line.rest.at)),
    }
}

/// The next field as a weight.
#[inline]
fn weight(line: Reading<'_>) -> Result<(u32, Reading<'_>), TextFault>
    ensures read { GivesText (λ r. (r.0, fields_left r.1)) result (count 0 1048576 (fields_left line.entry)) }
    ensures within { IsFaultWithin (stop line.entry.rest) result }
    ensures on { IfOk result (λ r. GoesOn line.entry r.1) }
{
    match count(line, 0, WEIGHT) {
        Some((n, rest)) => Ok((n, rest)),
        None => Err(TextFault::Syntax(line.rest.at)),
    }
}

/// The clock that ends a line: `clock NAME`.
#[inline]
#[tactic(auto, unfolding(crate::specs::Lines::one_clock))]
fn one_clock(alloc: Global, line: Reading<'_>) -> Result<(Option<Text>, Option<usize>), TextFault>
    ensures read { GivesText (λ r. r) result (lines.one_clock (fields_left line.entry)) }
    ensures fault { IsFaultWithin (stop line.entry.rest) result }
    ensures within { IfOk result (λ r. ForSome r.1 (λ at. at ≤ stop line.entry.rest)) }
{
    let line = passed(line, b"clock")?;
    let (name, line) = name(alloc, line)?;
    let breach = line_end(line)?;
    Ok((Some(name), breach))
}

/// The end of a line without a clock.
#[inline]
#[tactic(auto, unfolding(crate::specs::Lines::no_clock))]
fn no_clock(line: Reading<'_>) -> Result<(Option<Text>, Option<usize>), TextFault>
    ensures read { GivesText (λ r. r) result (lines.no_clock (fields_left line.entry)) }
    ensures fault { IsFaultWithin (stop line.entry.rest) result }
    ensures within { IfOk result (λ r. ForSome r.1 (λ at. at ≤ stop line.entry.rest)) }
{
    let breach = line_end(line)?;
    Ok((None, breach))
}

/// Whether a clock ends the line.
#[inline]
fn has_clock(line: Reading<'_>, version: u32) -> bool
    ensures { result ≡ lines.has_clock version (fields_left line.entry) }
{
    version == 2 && next_field(line.rest).is_some()
}

/// The end of a line: under version 2 a clock or nothing, under version 1 nothing.
#[inline]
#[tactic(auto, unfolding(crate::specs::Lines::clock))]
fn clock(
    alloc: Global,
    line: Reading<'_>,
    version: u32,
) -> Result<(Option<Text>, Option<usize>), TextFault>
    ensures read { GivesText (λ r. r) result (lines.clock version (fields_left line.entry)) }
    ensures fault { IsFaultWithin (stop line.entry.rest) result }
    ensures within { IfOk result (λ r. ForSome r.1 (λ at. at ≤ stop line.entry.rest)) }
{
    if has_clock(line, version) {
        one_clock(alloc, line)
    } else {
        no_clock(line)
    }
}

/// What a line gives: `extra E weight W`, and the clock.
#[tactic(auto, unfolding(crate::specs::Lines::given))]
fn given(
    alloc: Global,
    line: Reading<'_>,
    version: u32,
) -> Result<(Amounts, Option<usize>), TextFault>
    ensures read { GivesText (λ r. r) result (lines.given version (fields_left line.entry)) }
    ensures fault { IsFaultWithin (stop line.entry.rest) result }
    ensures within { IfOk result (λ r. ForSome r.1 (λ at. at ≤ stop line.entry.rest)) }
{
    let line = passed(line, b"extra")?;
    let (extra, line) = extra(line)?;
    let line = passed(line, b"weight")?;
    let (weight, line) = weight(line)?;
    let (clock, breach) = clock(alloc, line, version)?;
    let given = Amounts {
        extra,
        weight,
        clock,
    };
    Ok((given, breach))
}

/// `block PATH`
#[tactic(auto, unfolding(crate::specs::Lines::block))]
fn block(alloc: Global, line: Reading<'_>) -> Result<(PolicyLine, Option<usize>), TextFault>
    ensures read { GivesText (λ r. r) result (lines.block (fields_left line.entry)) }
    ensures fault { IsFaultWithin (stop line.entry.rest) result }
    ensures within { IfOk result (λ r. ForSome r.1 (λ at. at ≤ stop line.entry.rest)) }
{
    let (path, line) = name(alloc, line)?;
    let breach = line_end(line)?;
    Ok((PolicyLine::Block(path), breach))
}

/// `default extra E weight W`
#[tactic(auto, unfolding(crate::specs::Lines::default))]
fn default(
    alloc: Global,
    line: Reading<'_>,
    version: u32,
) -> Result<(PolicyLine, Option<usize>), TextFault>
    ensures read { GivesText (λ r. r) result (lines.default version (fields_left line.entry)) }
    ensures fault { IsFaultWithin (stop line.entry.rest) result }
    ensures within { IfOk result (λ r. ForSome r.1 (λ at. at ≤ stop line.entry.rest)) }
{
    let (given, breach) = given(alloc, line, version)?;
    let Amounts {
        extra,
        weight,
        clock,
    } = given;
    let line = PolicyLine::Default {
        extra,
        weight,
        clock,
    };
    Ok((line, breach))
}

/// `inst PATH extra E weight W`
#[tactic(auto, unfolding(crate::specs::Lines::inst))]
fn inst(
    alloc: Global,
    line: Reading<'_>,
    version: u32,
) -> Result<(PolicyLine, Option<usize>), TextFault>
    ensures read { GivesText (λ r. r) result (lines.inst version (fields_left line.entry)) }
    ensures fault { IsFaultWithin (stop line.entry.rest) result }
    ensures within { IfOk result (λ r. ForSome r.1 (λ at. at ≤ stop line.entry.rest)) }
{
    let (path, line) = name(alloc, line)?;
    let (given, breach) = given(alloc, line, version)?;
    let Amounts {
        extra,
        weight,
        clock,
    } = given;
    let line = PolicyLine::Inst {
        path,
        extra,
        weight,
        clock,
    };
    Ok((line, breach))
}

/// `arc FROM TO extra E weight W`
#[tactic(auto, unfolding(crate::specs::Lines::arc))]
fn arc(
    alloc: Global,
    line: Reading<'_>,
    version: u32,
) -> Result<(PolicyLine, Option<usize>), TextFault>
    ensures read { GivesText (λ r. r) result (lines.arc version (fields_left line.entry)) }
    ensures fault { IsFaultWithin (stop line.entry.rest) result }
    ensures within { IfOk result (λ r. ForSome r.1 (λ at. at ≤ stop line.entry.rest)) }
{
    let (from, line) = name(alloc, line)?;
    let (to, line) = name(alloc, line)?;
    let (given, breach) = given(alloc, line, version)?;
    let Amounts {
        extra,
        weight,
        clock,
    } = given;
    let line = PolicyLine::Arc {
        from,
        to,
        extra,
        weight,
        clock,
    };
    Ok((line, breach))
}

/// The kind of line that a first word begins.
#[inline]
fn kind_of(field: &[u8]) -> Option<Kind>
    ensures { result ≡ lines.kind_of field.now }
{
    if field == b"block".as_slice() {
        Some(Kind::Block)
    } else if field == b"default".as_slice() {
        Some(Kind::Default)
    } else if field == b"inst".as_slice() {
        Some(Kind::Inst)
    } else if field == b"arc".as_slice() {
        Some(Kind::Arc)
    } else {
        None
    }
}

fn line_of(
    alloc: Global,
    line: Reading<'_>,
    version: u32,
    kind: Kind,
) -> Result<(PolicyLine, Option<usize>), TextFault>
    ensures read { GivesText (λ r. r) result (lines.line_of version kind (fields_left line.entry)) }
    ensures fault { IsFaultWithin (stop line.entry.rest) result }
    ensures within { IfOk result (λ r. ForSome r.1 (λ at. at ≤ stop line.entry.rest)) }
{
    match kind {
        Kind::Block => block(alloc, line),
        Kind::Default => default(alloc, line, version),
        Kind::Inst => inst(alloc, line, version),
        Kind::Arc => arc(alloc, line, version),
    }
}

/// A row as a line of a policy of this version.
#[tactic(auto, unfolding(crate::specs::Lines::policy_line))]
pub fn policy_line(
    alloc: Global,
    row: Reading<'_>,
    version: u32,
) -> Result<(PolicyLine, Option<usize>), TextFault>
    ensures read { GivesText (λ r. r) result (lines.policy_line version (fields_left row.entry)) }
    ensures fault { IsFaultWithin (stop row.entry.rest) result }
    ensures within { IfOk result (λ r. ForSome r.1 (λ at. at ≤ stop row.entry.rest)) }
{
    let Some((field, rest)) = next_field(row.rest) else {
        return Err(TextFault::Syntax(row.rest.at));
    };
    let breach = row.breach;
    match kind_of(field.bytes) {
        Some(kind) => line_of(alloc, Reading { rest, breach }, version, kind),
        None => Err(TextFault::Syntax(field.at)),
    }
}
