ghost use Rattle.std.specs.Prelude.{◌≡◌, ◌<◌, ◌≤◌, ◌≤ℤ◌, pos};
ghost use Rattle.std.specs.Int.{int_rem_euclid};
ghost use Rattle.bud_design.specs.Clocks.{IsSoundClock, IsRelation, edge_time as time_of, common_divisor as divisor_of, or_whole, relation as relation_of};

use bud_design::Clock;
use bud_syntax::Edge;

/// The time of the clock's first rise or fall, in ps.
fn edge_time(clock: &Clock, edge: Edge) -> i64
    ensures { result ≡ time_of clock.now edge }
{
    match edge {
        Edge::Rise => clock.rise,
        Edge::Fall => clock.fall,
    }
}

/// The greatest common divisor, in logarithmically many divisions.
fn common_divisor(first: u64, second: u64) -> u64
    requires some { 0 < first }
    requires first { first ≤ 1000000000 }
    requires second { second ≤ 1000000000 }
    ensures value { result ≡ divisor_of first second }
    ensures some { 0 < result }
    ensures most { result ≤ 1000000000 }
{
    let mut divisor = first;
    let mut rest = second;
    while rest != 0 {
        let next = divisor % rest;
        divisor = rest;
        rest = next;
    }
    divisor
}

/// What is left of a distance by a whole time: from 1 to the whole.
fn left_over(distance: i128, whole: u64) -> i64
    requires some { 0 < whole }
    requires most { whole ≤ 1000000000 }
    ensures { result ≡ or_whole (int_rem_euclid distance (pos whole)) (pos whole) }
{
    let rest = distance.rem_euclid(i128::from(whole)) as i64;
    if rest == 0 { whole as i64 } else { rest }
}

/// The setup relation: the least positive time, in ps, from a launching edge of one clock to an edge
/// of the other, over all periods of both.
///
/// It takes logarithmically many divisions of the periods.
pub fn relation(launch: &Clock, edge: Edge, capture: &Clock, at: Edge) -> i64
    requires launch { IsSoundClock launch.now }
    requires capture { IsSoundClock capture.now }
    ensures value { result ≡ relation_of launch.now edge capture.now at }
    ensures least { IsRelation launch.now edge capture.now at result }
    ensures low { pos 1 ≤ℤ result }
    ensures high { result ≤ℤ pos 1000000000 }
{
    let first = launch.period.unsigned_abs();
    let second = capture.period.unsigned_abs();
    let distance = i128::from(edge_time(capture, at)) - i128::from(edge_time(launch, edge));
    left_over(distance, common_divisor(first, second))
}
