//! Worked examples.
ghost use Rattle.std.specs.Prelude.{◌≡◌, true, nat_lt, All, AllPairs};
ghost use Rattle.bud_design.specs.Clocks.{IsSoundClock};

use crate::{relation, requirement};
use bud_base::{Listed, PinId, Text};
use bud_design::{Capture, Class, Clock, Constraints, Exception, ExceptionKind, Marks, Met};
use bud_syntax::Edge;
use std::alloc::{AllocError, Global};
use std::process::Abort;

/// A clock that rises at 0.
fn clock(alloc: Global, period: i64, fall: i64) -> Clock {
    Clock {
        name: Text::new(alloc),
        period,
        rise: 0,
        fall,
        sources: Listed::new(alloc),
    }
}

fn assert_sound(rt: &impl Abort, clock: &Clock)
    ensures { IsSoundClock clock.now }
{
    assert!(rt; clock.period >= 2);
    assert!(rt; clock.period <= 1000000000);
    assert!(rt; clock.rise == 0);
    assert!(rt; clock.fall > 0);
    assert!(rt; clock.fall < clock.period);
}

fn assert_all_sound(rt: &impl Abort, clocks: &[Clock])
    ensures { All IsSoundClock clocks.now }
{
    for clock in clocks {
        assert_sound(rt, clock);
    }
}

fn assert_rising(rt: &impl Abort, exceptions: &[Exception])
    ensures { AllPairs (λ e f. nat_lt e.number f.number ≡ true) exceptions.now }
{
    let mut low: u32 = 0;
    for exception in exceptions {
        assert!(rt; low <= exception.number);
        assert!(rt; exception.number < 1000);
        low = exception.number + 1;
    }
}

fn relates(rt: &impl Abort, launch: &Clock, edge: Edge, capture: &Clock, at: Edge, time: i64) {
    assert_sound(rt, launch);
    assert_sound(rt, capture);
    assert_eq!(rt; relation(launch, edge, capture, at), time);
}

#[test]
fn relations_are_the_least_over_all_periods(rt: HostRuntime) {
    let alloc = rt.alloc();
    let ten = clock(alloc, 10000, 5000);
    let fifteen = clock(alloc, 15000, 7500);
    let odd = clock(alloc, 9999, 4999);
    relates(&rt, &ten, Edge::Rise, &fifteen, Edge::Rise, 5000);
    relates(&rt, &fifteen, Edge::Rise, &ten, Edge::Rise, 5000);
    relates(&rt, &ten, Edge::Rise, &ten, Edge::Rise, 10000);
    relates(&rt, &ten, Edge::Rise, &ten, Edge::Fall, 5000);
    relates(&rt, &odd, Edge::Rise, &odd, Edge::Fall, 4999);
    relates(&rt, &odd, Edge::Fall, &odd, Edge::Rise, 5000);
}

/// An exception without parts, numbered by its place.
fn exception(alloc: Global, number: u32, kind: ExceptionKind) -> Exception {
    Exception {
        number,
        kind,
        from: None,
        groups: Listed::new(alloc),
        to: None,
    }
}

/// Two clocks and these exceptions.
fn constraints(alloc: Global, kinds: &[ExceptionKind]) -> Result<Constraints, AllocError> {
    let mut exceptions = Vec::new(alloc);
    let mut number: u32 = 0;
    for kind in kinds {
        exceptions.push(exception(alloc, number, *kind))?;
        number = number.saturating_add(1);
    }
    Ok(Constraints {
        clocks: Listed::from_vec(vec![in alloc;
            clock(alloc, 10000, 5000),
            clock(alloc, 15000, 7500),
        ]?),
        launches: Listed::new(alloc),
        captures: Listed::new(alloc),
        exceptions: Listed::from_vec(exceptions),
        unclocked: Listed::new(alloc),
    })
}

/// The requirement from the first clock to the second, with these exceptions met.
fn required(
    rt: &impl Abort,
    alloc: Global,
    kinds: &[ExceptionKind],
) -> Result<Option<i64>, AllocError> {
    let all = constraints(alloc, kinds)?;
    let mut met = Vec::new(alloc);
    for exception in all.exceptions.as_slice() {
        met.push(Met {
            number: exception.number,
            steps: 0,
        })?;
    }
    let class = Class {
        clock: 0,
        edge: Edge::Rise,
        exceptions: Listed::from_vec(met),
    };
    let capture = Capture {
        pin: PinId(7),
        clock: 1,
        edge: Edge::Rise,
        amount: 0,
    };
    assert_all_sound(rt, all.clocks.as_slice());
    assert_rising(rt, all.exceptions.as_slice());
    assert!(rt; all.clocks.len() == 2);
    Ok(requirement(&all, &class, &capture))
}

#[test]
fn a_false_path_goes_before_a_maximum_and_that_before_multicycles(
    rt: HostRuntime,
) -> Result<(), AllocError> {
    let alloc = rt.alloc();
    let two = ExceptionKind::Multicycle(2, false);
    let start = ExceptionKind::Multicycle(2, true);
    let most = ExceptionKind::MaxDelay(4000);
    assert!(rt; required(&rt, alloc, &[])? == Some(5000));
    assert!(rt; required(&rt, alloc, &[two])? == Some(20000));
    assert!(rt; required(&rt, alloc, &[start])? == Some(15000));
    assert!(rt; required(&rt, alloc, &[ExceptionKind::Multicycle(3, false), two])? == Some(20000));
    assert!(rt; required(&rt, alloc, &[two, most])? == Some(4000));
    assert!(rt; required(&rt, alloc, &[most, two, ExceptionKind::FalsePath])? == None);
    Ok(())
}
