ghost use Rattle.std.specs.Prelude.{◌≡◌, ◌<◌, ◌≤ℤ◌, ◌*ℤ◌, ◌-◌, pos, true, nat_lt, length, All, AllPairs, Some, ℤ};
ghost use Rattle.bud_design.specs.Clocks.{IsSoundClock, clock_at};
ghost use Rattle.bud_design.specs.Exceptions.{class_requirement};
ghost use Rattle.bud_design.specs.Lists.{lesser as lesser_of};
ghost use Rattle.path_requirements.specs.Bounds.{IsModest, no_bounds, bounds_with, bounds_with_all};
ghost use Rattle.path_requirements.specs.Matching.{kinds_met};

use crate::matching::kind_met;
use crate::relations::relation;
use bud_design::{Capture, Class, Clock, Constraints, Exception, ExceptionKind, Met};

/// What exceptions that match ask for.
#[derive(Clone, Copy, Debug)]
struct Bounds {
    /// One is a false path.
    never: bool,
    /// The least of the maximum delays, in ps.
    most: Option<i64>,
    /// The least that a multicycle adds, in ps.
    more: Option<i64>,
}

/// The lesser of a time and, where there is one, another.
fn lesser(time: i64, other: Option<i64>) -> i64
    ensures value { result ≡ lesser_of time other }
    ensures modest { IsModest (Some time) → IsModest other → IsModest (Some result) }
{
    match other {
        Some(other) => { if time <= other { time } else { other } }
        None => time,
    }
}

/// What a multicycle of so many periods adds.
fn more_cycles(count: u32, period: i64) -> i64
    requires low { pos 0 ≤ℤ period }
    requires high { period ≤ℤ pos 1000000000 }
    ensures value { result ≡ pos (count - 1) *ℤ period }
    ensures modest { IsModest (Some result) }
{
    i64::from(count.saturating_sub(1)) * period
}

/// The bounds with one exception more.
fn with_kind(bounds: Bounds, kind: ExceptionKind, launch: &Clock, capture: &Clock) -> Bounds
    requires launch { IsSoundClock launch.now }
    requires capture { IsSoundClock capture.now }
    requires modest { IsModest bounds.more }
    ensures value { result ≡ bounds_with launch.now capture.now bounds kind }
    ensures modest { IsModest result.more }
{
    match kind {
        ExceptionKind::FalsePath => Bounds {
            never: true,
            most: bounds.most,
            more: bounds.more,
        },
        ExceptionKind::Multicycle(count, by_launch) => {
            let period = if by_launch {
                launch.period
            } else {
                capture.period
            };
            let more = more_cycles(count, period);
            Bounds {
                never: bounds.never,
                most: bounds.most,
                more: Some(lesser(more, bounds.more)),
            }
        }
        ExceptionKind::MaxDelay(amount) => Bounds {
            never: bounds.never,
            most: Some(lesser(amount, bounds.most)),
            more: bounds.more,
        },
    }
}

/// What the exceptions ask for whose states a class lists as met, at a capture.
fn bounds_of(
    exceptions: &[Exception],
    met: &[Met],
    at: &Capture,
    launch: &Clock,
    capture: &Clock,
) -> Bounds
    requires numbers { AllPairs (λ e f. nat_lt e.number f.number ≡ true) exceptions.now }
    requires launch { IsSoundClock launch.now }
    requires capture { IsSoundClock capture.now }
    ensures modest { IsModest result.more }
    ensures value { result ≡ bounds_with_all launch.now capture.now no_bounds (kinds_met exceptions.now at.now met.now) }
{
    let mut bounds = Bounds {
        never: false,
        most: None,
        more: None,
    };
    for state in met {
        if let Some(kind) = kind_met(exceptions, *state, at) {
            bounds = with_kind(bounds, kind, launch, capture);
        }
    }
    bounds
}

/// The requirement, in ps, of a launch and a path of the class and of a capture: None where a false
/// path matches, else the least maximum delay, else the relation and the least that a multicycle adds.
///
/// It looks at the exceptions of the class alone, and finds each in logarithmic time.
pub fn requirement(all: &Constraints, class: &Class, capture: &Capture) -> Option<i64>
    requires clocks { All IsSoundClock all.now.clocks }
    requires numbers { AllPairs (λ e f. nat_lt e.number f.number ≡ true) all.now.exceptions }
    requires launch_clock { class.now.clock < length all.now.clocks }
    requires capture_clock { capture.now.clock < length all.now.clocks }
    ensures { result ≡ class_requirement all.now class.now capture.now }
{
    let clocks = all.clocks.as_slice();
    let launch = &clocks[class.clock as usize];
    let target = &clocks[capture.clock as usize];
    let bounds = bounds_of(
        all.exceptions.as_slice(),
        class.exceptions.as_slice(),
        capture,
        launch,
        target,
    );
    if bounds.never {
        return None;
    }
    match bounds.most {
        Some(amount) => Some(amount),
        None => {
            let apart = relation(launch, class.edge, target, capture.edge);
            Some(apart + bounds.more.unwrap_or(0))
        }
    }
}
