//! Worked examples.
use crate::first_classes;
use bud_base::{Listed, PinId};
use bud_design::{Constraints, Exception, ExceptionKind, Launch, Marks, PinList};
use bud_syntax::Edge;
use std::alloc::{AllocError, Global};
use std::test::Fail;

fn pins(alloc: Global, pins: &[PinId]) -> Result<PinList, AllocError> {
    Ok(Listed::from_vec(Vec::from_slice(alloc, pins)?))
}

fn launch(pin: u32, clock: u32) -> Launch {
    Launch {
        pin: PinId(pin),
        clock,
        edge: Edge::Rise,
        offset: 0,
    }
}

/// Launches at pins 4 and 5 of clocks 0 and 1. Exception 3 is from pin 4, named twice, and from clock 0, through pin 4;
/// exception 8 is from anywhere.
fn constraints(alloc: Global) -> Result<Constraints, AllocError> {
    let launches = vec![in alloc; launch(4, 0), launch(5, 0), launch(5, 1)]?;
    let from = Marks {
        pins: pins(alloc, &[PinId(4), PinId(4)])?,
        clocks: Listed::from_vec(vec![in alloc; 0]?),
    };
    let third = Exception {
        number: 3,
        kind: ExceptionKind::FalsePath,
        from: Some(from),
        groups: Listed::from_vec(vec![in alloc; pins(alloc, &[PinId(4)])?]?),
        to: None,
    };
    let eighth = Exception {
        number: 8,
        kind: ExceptionKind::FalsePath,
        from: None,
        groups: Listed::new(alloc),
        to: None,
    };
    Ok(Constraints {
        clocks: Listed::new(alloc),
        launches: Listed::from_vec(launches),
        captures: Listed::new(alloc),
        exceptions: Listed::from_vec(vec![in alloc; third, eighth]?),
        unclocked: Listed::new(alloc),
    })
}

#[test]
fn each_launch_meets_an_exception_once(rt: HostRuntime) -> Result<(), Fail> {
    let alloc = rt.alloc();
    let all = constraints(alloc)?;
    let classes = first_classes(alloc, &all)?;
    assert_eq!(rt; classes.len(), 3);
    let first = classes[0].exceptions.as_slice();
    assert_eq!(rt; first.len(), 2);
    assert_eq!(rt; first[0].number, 3);
    assert_eq!(rt; first[0].steps, 1);
    assert_eq!(rt; first[1].number, 8);
    assert_eq!(rt; first[1].steps, 0);
    let second = classes[1].exceptions.as_slice();
    assert_eq!(rt; second.len(), 2);
    assert_eq!(rt; second[0].steps, 0);
    let third = classes[2].exceptions.as_slice();
    assert_eq!(rt; third.len(), 1);
    assert_eq!(rt; third[0].number, 8);
    assert_eq!(rt; classes[2].clock, 1);
    Ok(())
}
