//! Worked examples.
use crate::{ClassTable, GroupPins, next_class, same_class};
use bud_base::{Listed, PinId};
use bud_design::{Class, Constraints, Exception, ExceptionKind, Met, PinList};
use bud_syntax::Edge;
use std::alloc::{AllocError, Global};
use std::test::Fail;

fn group(alloc: Global, pins: &[PinId]) -> Result<PinList, AllocError> {
    Ok(Listed::from_vec(Vec::from_slice(alloc, pins)?))
}

/// A false path of this number through pins 1 or 2, and then 2 or 3.
fn exception(alloc: Global, number: u32) -> Result<Exception, AllocError> {
    let groups = vec![in alloc;
        group(alloc, &[PinId(1), PinId(2)])?,
        group(alloc, &[PinId(2), PinId(3)])?,
    ]?;
    Ok(Exception {
        number,
        kind: ExceptionKind::FalsePath,
        from: None,
        groups: Listed::from_vec(groups),
        to: None,
    })
}

/// The class of a launch that meets the exceptions 4 and 7, with so many steps of the latter.
fn class(alloc: Global, steps: u32) -> Result<Class, AllocError> {
    let four = Met {
        number: 4,
        steps: 0,
    };
    Ok(Class {
        clock: 0,
        edge: Edge::Rise,
        exceptions: Listed::from_vec(vec![in alloc; four, Met { number: 7, steps }]?),
    })
}

#[test]
fn a_pin_counts_for_one_group(rt: HostRuntime) -> Result<(), Fail> {
    let alloc = rt.alloc();
    let other = Exception {
        number: 4,
        kind: ExceptionKind::FalsePath,
        from: None,
        groups: Listed::new(alloc),
        to: None,
    };
    let all = Constraints {
        clocks: Listed::new(alloc),
        launches: Listed::new(alloc),
        captures: Listed::new(alloc),
        exceptions: Listed::from_vec(vec![in alloc; other, exception(alloc, 7)?]?),
        unclocked: Listed::new(alloc),
    };
    let groups = GroupPins::of(alloc, all.exceptions.as_slice())?;
    let none = class(alloc, 0)?;
    let first = next_class(alloc, &all, &groups, &none, PinId(2))?;
    let past = next_class(alloc, &all, &groups, &first, PinId(9))?;
    let second = next_class(alloc, &all, &groups, &past, PinId(2))?;
    assert!(rt; same_class(&first, &class(alloc, 1)?));
    assert!(rt; same_class(&first, &past));
    assert!(rt; same_class(&second, &class(alloc, 2)?));
    let kinds = ClassTable::new(alloc).with(first)?.with(second)?;
    assert_eq!(rt; kinds.find(&past), Some(0));
    assert_eq!(rt; kinds.find(&class(alloc, 2)?), Some(1));
    assert_eq!(rt; kinds.find(&class(alloc, 3)?), None);
    assert_eq!(rt; kinds.as_slice().len(), kinds.len());
    Ok(())
}
