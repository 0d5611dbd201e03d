ghost use Rattle.std.specs.Prelude.{◌≡◌, ℕ, ℤ, pos, ◌-ℤ◌, ◌≤ℤ◌, ◌≤◌, IfOk, IfSome, codes};
ghost use Rattle.std.specs.Option.{ForSome};
ghost use Rattle.text_scan.specs.Gives.{Gives};
ghost use Rattle.text_scan.specs.Left.{end_of};
ghost use Rattle.line_text.specs.Answers.{GivesText, IsFaultWithin};
ghost use Rattle.line_text.specs.Readings.{fields_left, GoesOn};
ghost use Rattle.line_text.specs.Spans.{stop};
ghost use Rattle.cert_text.specs.Lines as lines;

use crate::certs::{CertClass, CertFlow, CertItem, CertNode};
use crate::exceptions::exceptions;
use bud_base::{ClassId, TextFault};
use bud_syntax::Edge;
use line_text::{Line, OwnedLine, Reading, count, end, name, next_field, whole, wide_whole, word};
use std::alloc::Global;

/// Budgets, arrivals and flows are within this either way.
const NUMBER: i64 = 17592186044416;

/// Weights are within this either way.
const WEIGHT: i128 = 1267650600228229401496703205376;

/// The next field as the number of a class.
#[inline]
#[tactic(auto, unfolding(crate::specs::Lines::class_number))]
fn class_number(line: Reading<'_>) -> Result<(ClassId, Reading<'_>), TextFault>
    ensures read { GivesText (λ r. (r.0, fields_left r.1)) result (lines.class_number (fields_left line.entry)) }
    ensures within { IsFaultWithin (stop line.entry.rest) result }
    ensures on { IfOk result (λ r. GoesOn line.entry r.1) }
{
    match count(line, 0, u32::MAX) {
        Some((n, rest)) => Ok((ClassId(n), rest)),
        None => Err(TextFault::Syntax(line.rest.at)),
    }
}

/// The next field as a budget, an arrival or a flow.
#[inline]
fn number(line: Reading<'_>) -> Result<(i64, Reading<'_>), TextFault>
    ensures read { GivesText (λ r. (r.0, fields_left r.1)) result (lines.number (fields_left line.entry)) }
    ensures within { IsFaultWithin (stop line.entry.rest) result }
    ensures on { IfOk result (λ r. GoesOn line.entry r.1) }
{
    match whole(line, -NUMBER, NUMBER) {
        Some((n, rest)) => Ok((n, rest)),
        None => Err(TextFault::Syntax(line.rest.at)),
    }
}

/// The edge that a word names.
#[inline]
fn edge_of(field: &[u8]) -> Option<Edge>
    ensures { result ≡ lines.edge_of field.now }
{
    if field == b"rise".as_slice() {
        Some(Edge::Rise)
    } else if field == b"fall".as_slice() {
        Some(Edge::Fall)
    } else {
        None
    }
}

/// The next field as an edge.
#[inline]
#[tactic(auto, unfolding(crate::specs::Lines::edge))]
fn edge(line: Reading<'_>) -> Result<(Edge, Reading<'_>), TextFault>
    ensures read { GivesText (λ r. (r.0, fields_left r.1)) result (lines.edge (fields_left line.entry)) }
    ensures within { IsFaultWithin (stop line.entry.rest) result }
    ensures on { IfOk result (λ r. GoesOn line.entry r.1) }
{
    let Some((field, rest)) = next_field(line.rest) else {
        return Err(TextFault::Syntax(line.rest.at));
    };
    let breach = line.breach;
    match edge_of(field.bytes) {
        Some(found) => Ok((found, Reading { rest, breach })),
        None => Err(TextFault::Syntax(field.at)),
    }
}

/// The least breach of a line of which no field is left.
#[inline]
fn line_end(line: Reading<'_>) -> Result<Option<usize>, TextFault>
    ensures read { GivesText (λ breach. breach) result (end_of (fields_left line.entry)) }
    ensures fault { IsFaultWithin (stop line.entry.rest) result }
    ensures within { IfOk result (λ breach. ForSome breach (λ at. at ≤ stop line.entry.rest)) }
{
    match end(line) {
        Some(breach) => Ok(breach),
        None => Err(TextFault::Syntax(line.rest.at)),
    }
}

/// The version that a word names.
#[inline]
fn version_of(field: &[u8]) -> Option<u32>
    ensures { result ≡ lines.version_of field.now }
{
    if field == b"1".as_slice() {
        Some(1)
    } else if field == b"2".as_slice() {
        Some(2)
    } else {
        None
    }
}

/// `certificate 1` or `certificate 2`
pub struct Version;

impl Line for Version {
    type Value = u32;

    ghost title = { codes "certificate" };

    ghost production = { lines.version };

    fn title() -> &'static [u8] {
        b"certificate"
    }

    #[inline]
    #[tactic(auto, unfolding(crate::specs::Lines::version))]
    fn read(line: Reading<'_>) -> Option<(u32, Option<usize>)> {
        let (field, rest) = next_field(line.rest)?;
        let version = version_of(field.bytes)?;
        let breach = line.breach;
        Some((version, end(Reading { rest, breach })?))
    }
}

/// `policy 2`
pub struct PolicyLine;

impl Line for PolicyLine {
    type Value = ();

    ghost title = { codes "policy" };

    ghost production = { lines.policy };

    fn title() -> &'static [u8] {
        b"policy"
    }

    #[inline]
    #[tactic(auto, unfolding(crate::specs::Lines::policy))]
    fn read(line: Reading<'_>) -> Option<((), Option<usize>)> {
        let line = word(line, b"2")?;
        Some(((), end(line)?))
    }
}

/// `weight W`
pub struct WeightLine;

impl Line for WeightLine {
    type Value = i128;

    ghost title = { codes "weight" };

    ghost production = { lines.weight };

    fn title() -> &'static [u8] {
        b"weight"
    }

    #[inline]
    #[tactic(auto, unfolding(crate::specs::Lines::weight))]
    fn read(line: Reading<'_>) -> Option<(i128, Option<usize>)> {
        let (weight, line) = wide_whole(line, -WEIGHT, WEIGHT)?;
        Some((weight, end(line)?))
    }
}

/// `node NAME K ARRIVAL`
pub struct NodeLine;

impl OwnedLine for NodeLine {
    type Value = CertNode;

    ghost title = { codes "node" };

    ghost production = { lines.node };

    fn title() -> &'static [u8] {
        b"node"
    }

    #[inline]
    #[tactic(auto, unfolding(crate::specs::Lines::node))]
    fn read(alloc: Global, line: Reading<'_>) -> Result<(CertNode, Option<usize>), TextFault> {
        let (name, line) = name(alloc, line)?;
        let (class, line) = class_number(line)?;
        let (arrival, line) = number(line)?;
        let breach = line_end(line)?;
        let node = CertNode {
            name,
            class,
            arrival,
        };
        Ok((node, breach))
    }
}

/// `item FROM TO K BUDGET FLOW`
pub struct ItemLine;

impl OwnedLine for ItemLine {
    type Value = CertItem;

    ghost title = { codes "item" };

    ghost production = { lines.item };

    fn title() -> &'static [u8] {
        b"item"
    }

    #[inline]
    #[tactic(auto, unfolding(crate::specs::Lines::item))]
    fn read(alloc: Global, line: Reading<'_>) -> Result<(CertItem, Option<usize>), TextFault> {
        let (from, line) = name(alloc, line)?;
        let (to, line) = name(alloc, line)?;
        let (class, line) = class_number(line)?;
        let (budget, line) = number(line)?;
        let (flow, line) = number(line)?;
        let breach = line_end(line)?;
        let item = CertItem {
            from,
            to,
            class,
            budget,
            flow,
        };
        Ok((item, breach))
    }
}

/// The fields of a start or an end.
#[inline]
#[tactic(auto, unfolding(crate::specs::Lines::flow))]
fn flow(alloc: Global, line: Reading<'_>) -> Result<(CertFlow, Option<usize>), TextFault>
    ensures read { GivesText (λ r. r) result (lines.flow (fields_left line.entry)) }
    ensures fault { IsFaultWithin (stop line.entry.rest) result }
    ensures within { IfOk result (λ r. ForSome r.1 (λ at. at ≤ stop line.entry.rest)) }
{
    let (name, line) = name(alloc, line)?;
    let (class, line) = class_number(line)?;
    let (flow, line) = number(line)?;
    let breach = line_end(line)?;
    Ok((CertFlow { name, class, flow }, breach))
}

/// `start NAME K FLOW`
pub struct StartLine;

impl OwnedLine for StartLine {
    type Value = CertFlow;

    ghost title = { codes "start" };

    ghost production = { lines.flow };

    fn title() -> &'static [u8] {
        b"start"
    }

    #[inline]
    fn read(alloc: Global, line: Reading<'_>) -> Result<(CertFlow, Option<usize>), TextFault> {
        flow(alloc, line)
    }
}

/// `end NAME K FLOW`
pub struct EndLine;

impl OwnedLine for EndLine {
    type Value = CertFlow;

    ghost title = { codes "end" };

    ghost production = { lines.flow };

    fn title() -> &'static [u8] {
        b"end"
    }

    #[inline]
    fn read(alloc: Global, line: Reading<'_>) -> Result<(CertFlow, Option<usize>), TextFault> {
        flow(alloc, line)
    }
}

/// `class K CLOCK EDGE N ..`, where an exception may also be `N:S`
pub struct ClassLine;

impl OwnedLine for ClassLine {
    type Value = CertClass;

    ghost title = { codes "class" };

    ghost production = { lines.class };

    fn title() -> &'static [u8] {
        b"class"
    }

    #[inline]
    #[tactic(auto, unfolding(crate::specs::Lines::class))]
    fn read(alloc: Global, line: Reading<'_>) -> Result<(CertClass, Option<usize>), TextFault> {
        let (number, line) = class_number(line)?;
        let (clock, line) = name(alloc, line)?;
        let (edge, line) = edge(line)?;
        let (exceptions, breach) = exceptions(alloc, line)?;
        let class = CertClass {
            number,
            clock,
            edge,
            exceptions,
        };
        Ok((class, breach))
    }
}
