ghost use Rattle.std.specs.Prelude.{◌≡◌, ℕ, ◌≤◌, IfSome, codes};
ghost use Rattle.std.specs.Option.{ForSome};
ghost use Rattle.text_scan.specs.Gives.{Gives};
ghost use Rattle.line_text.specs.Readings.{fields_left, GoesOn};
ghost use Rattle.line_text.specs.Spans.{stop};
ghost use Rattle.problem_text.specs.Lines as lines;

use bud_base::{End, Item, NodeId, Start};
use line_text::{Line, Reading, count, end, whole, word};

/// Times are within this either way, in ps.
const TIME: i64 = 4611686018427387904;

#[inline]
fn number(line: Reading<'_>) -> Option<(u32, Reading<'_>)>
    ensures read { Gives (λ r. (r.0, fields_left r.1)) result (lines.number (fields_left line.entry)) }
    ensures on { IfSome result (λ r. GoesOn line.entry r.1) }
{
    count(line, 0, u32::MAX)
}

#[inline]
#[tactic(auto, unfolding(crate::specs::Lines::node))]
fn node(line: Reading<'_>) -> Option<(NodeId, Reading<'_>)>
    ensures read { Gives (λ r. (r.0, fields_left r.1)) result (lines.node (fields_left line.entry)) }
    ensures on { IfSome result (λ r. GoesOn line.entry r.1) }
{
    let (n, line) = number(line)?;
    Some((NodeId(n), line))
}

#[inline]
fn time(line: Reading<'_>) -> Option<(i64, Reading<'_>)>
    ensures read { Gives (λ r. (r.0, fields_left r.1)) result (lines.time (fields_left line.entry)) }
    ensures on { IfSome result (λ r. GoesOn line.entry r.1) }
{
    whole(line, -TIME, TIME)
}

/// `problem 1`
pub struct Version;

impl Line for Version {
    type Value = ();

    ghost title = { codes "problem" };

    ghost production = { lines.version };

    fn title() -> &'static [u8] {
        b"problem"
    }

    #[inline]
    #[tactic(auto, unfolding(crate::specs::Lines::version))]
    fn read(line: Reading<'_>) -> Option<((), Option<usize>)> {
        let line = word(line, b"1")?;
        Some(((), end(line)?))
    }
}

/// `nodes N`
pub struct Nodes;

impl Line for Nodes {
    type Value = u32;

    ghost title = { codes "nodes" };

    ghost production = { lines.nodes };

    fn title() -> &'static [u8] {
        b"nodes"
    }

    #[inline]
    #[tactic(auto, unfolding(crate::specs::Lines::nodes))]
    fn read(line: Reading<'_>) -> Option<(u32, Option<usize>)> {
        let (n, line) = number(line)?;
        Some((n, end(line)?))
    }
}

/// `item FROM TO LEAST GREATEST WEIGHT`
pub struct ItemLine;

impl Line for ItemLine {
    type Value = Item;

    ghost title = { codes "item" };

    ghost production = { lines.item };

    fn title() -> &'static [u8] {
        b"item"
    }

    #[inline]
    #[tactic(auto, unfolding(crate::specs::Lines::item))]
    fn read(line: Reading<'_>) -> Option<(Item, Option<usize>)> {
        let (from, line) = node(line)?;
        let (to, line) = node(line)?;
        let (least, line) = time(line)?;
        let (greatest, line) = time(line)?;
        let (weight, line) = number(line)?;
        let breach = end(line)?;
        Some((
            Item {
                from,
                to,
                least,
                greatest,
                weight,
            },
            breach,
        ))
    }
}

/// `start NODE OFFSET`
pub struct StartLine;

impl Line for StartLine {
    type Value = Start;

    ghost title = { codes "start" };

    ghost production = { lines.start };

    fn title() -> &'static [u8] {
        b"start"
    }

    #[inline]
    #[tactic(auto, unfolding(crate::specs::Lines::start))]
    fn read(line: Reading<'_>) -> Option<(Start, Option<usize>)> {
        let (node, line) = node(line)?;
        let (offset, line) = time(line)?;
        Some((Start { node, offset }, end(line)?))
    }
}

/// `end NODE REQUIRE`
pub struct EndLine;

impl Line for EndLine {
    type Value = End;

    ghost title = { codes "end" };

    ghost production = { lines.end };

    fn title() -> &'static [u8] {
        b"end"
    }

    #[inline]
    #[tactic(auto, unfolding(crate::specs::Lines::end))]
    fn read(line: Reading<'_>) -> Option<(End, Option<usize>)> {
        let (node, line) = node(line)?;
        let (require, line) = time(line)?;
        Some((End { node, require }, end(line)?))
    }
}
