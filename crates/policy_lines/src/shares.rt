ghost use Rattle.std.specs.Prelude.{◌≡◌, ◌<◌, map, length, All};
ghost use Rattle.std.specs.Option.{option_map};
ghost use Rattle.bud_design.specs.Arcs.{arc_at};
ghost use Rattle.bud_design.specs.Policies.{suits_clock as suits, holds_place as holds, is_number, share, share_of as share_by, share_if as given_if};
ghost use Rattle.policy_lines.specs.Lines.{line_number};
ghost use Rattle.policy_lines.specs.Shares.{share_seen, IsSoundShare, IsSoundLine};

use crate::places::is_inside;
use bud_base::{ArcId, Text};
use bud_design::{Clock, PolicyLine};
use flat_design::Flat;
use timing_graph::Graph;

/// What lines give an arc in a class of a clock: the extra in ps, from 0 to 10^9, and the weight, at most 2^20.
#[derive(Clone, Copy, Debug, PartialEq, Eq)]
pub struct Share {
    pub extra: i64,
    pub weight: u32,
}

fn share_if(counts: bool, extra: i64, weight: u32) -> Option<Share>
    ensures { option_map share_seen result ≡ given_if counts extra weight }
{
    if counts {
        Some(Share { extra, weight })
    } else {
        None
    }
}

/// Whether a line with this clock, or none, counts for a clock.
fn suits_clock(name: &Option<Text>, clock: &Clock) -> bool
    ensures { result ≡ suits name.now clock.now }
{
    match name {
        None => true,
        Some(name) => clock.name.as_slice() == name.as_slice(),
    }
}

fn holds_place(flat: &Flat, place: u32, number: Option<u32>) -> bool
    requires { place < length flat.now.places }
    ensures { result ≡ holds flat.now place number }
{
    let places = flat.places();
    match number {
        None => false,
        Some(root) => is_inside(places, root, place),
    }
}

fn is_arc(arc: ArcId, number: Option<u32>) -> bool
    ensures { result ≡ is_number arc.0 number }
{
    match number {
        None => false,
        Some(other) => other == arc.0,
    }
}

/// What a line gives an arc in a class of a clock; None where the line doesn't count for it.
fn share_of(
    flat: &Flat,
    graph: &Graph,
    line: &PolicyLine,
    number: Option<u32>,
    arc: ArcId,
    clock: &Clock,
) -> Option<Share>
    requires arc { arc.0 < length graph.now.arcs }
    requires home { (arc_at graph.now.arcs arc.0).home < length flat.now.places }
    requires number { number ≡ line_number flat.now graph.now.arcs line.now }
    ensures { option_map share_seen result ≡ share_by flat.now graph.now.arcs arc.0 clock.now line.now }
{
    match line {
        PolicyLine::Block(_) => None,
        PolicyLine::Default {
            extra,
            weight,
            clock: name,
        } => share_if(suits_clock(name, clock), *extra, *weight),
        PolicyLine::Inst {
            extra,
            weight,
            clock: name,
            ..
        } => {
            let counts = suits_clock(name, clock) && holds_place(flat, graph.home(arc), number);
            share_if(counts, *extra, *weight)
        }
        PolicyLine::Arc {
            extra,
            weight,
            clock: name,
            ..
        } => share_if(
            suits_clock(name, clock) && is_arc(arc, number),
            *extra,
            *weight,
        ),
    }
}

/// What the last line that counts gives an arc in a class of a clock; nothing where none counts.
pub fn last_share(
    flat: &Flat,
    graph: &Graph,
    lines: &[PolicyLine],
    numbers: &[Option<u32>],
    arc: ArcId,
    clock: &Clock,
) -> Share
    requires arc { arc.0 < length graph.now.arcs }
    requires home { (arc_at graph.now.arcs arc.0).home < length flat.now.places }
    requires numbers { numbers.now ≡ map (line_number flat.now graph.now.arcs) lines.now }
    ensures share { share_seen result ≡ share flat.now graph.now.arcs lines.now arc.0 clock.now }
    ensures sound { All IsSoundLine lines.now → IsSoundShare (share_seen result) }
{
    let mut place = lines.len();
    while place > 0 {
        place -= 1;
        let given = share_of(flat, graph, &lines[place], numbers[place], arc, clock);
        if let Some(share) = given {
            return share;
        }
    }
    Share {
        extra: 0,
        weight: 0,
    }
}
