use crate::classes::{class_lines, is_class_line};
use bud_base::{Listed, PinId, Text};
use bud_design::{Class, Clock, Constraints, Exception, ExceptionKind, Met};
use bud_syntax::Edge;
use cert_text::{Cert, write_cert};
use std::process::Abort;
use std::test::Fail;

/// One clock C, and an exception of number 4 with one group.
fn constraints(rt: &impl AllocGlobal) -> Result<Constraints, Fail> {
    let clock = Clock {
        name: Text::from_vec(Vec::from_slice(rt.alloc(), b"C")?),
        period: 2000,
        rise: 0,
        fall: 1000,
        sources: Listed::new(rt.alloc()),
    };
    let group = Listed::from_vec(vec![in rt.alloc(); PinId(4)]?);
    let exception = Exception {
        number: 4,
        kind: ExceptionKind::FalsePath,
        from: None,
        groups: Listed::from_vec(vec![in rt.alloc(); group]?),
        to: None,
    };
    Ok(Constraints {
        clocks: Listed::from_vec(vec![in rt.alloc(); clock]?),
        launches: Listed::new(rt.alloc()),
        captures: Listed::new(rt.alloc()),
        exceptions: Listed::from_vec(vec![in rt.alloc(); exception]?),
        unclocked: Listed::new(rt.alloc()),
    })
}

/// A class of the clock that meets the exception of number 4 in its from-part and so many of its groups.
fn class(rt: &impl AllocGlobal, steps: u32) -> Result<Class, Fail> {
    Ok(Class {
        clock: 0,
        edge: Edge::Rise,
        exceptions: Listed::from_vec(vec![in rt.alloc(); Met { number: 4, steps }]?),
    })
}

#[test]
fn writes_classes_by_the_groups_that_they_meet(rt: HostRuntime) -> Result<(), Fail> {
    let all = constraints(&rt)?;
    let classes = vec![in rt.alloc(); class(&rt, 0)?, class(&rt, 1)?]?;
    assert!(rt; classes.len() < 4_294_967_296);
    let lines = class_lines(rt.alloc(), &all, classes.as_slice())?;
    for (number, line) in lines.as_slice().iter().enumerate() {
        assert!(rt; number < classes.len());
        assert!(rt; is_class_line(&all, number, &classes[number], line));
        assert!(rt; !is_class_line(&all, 1 - number.min(1), &classes[number], line));
    }
    let cert = Cert {
        policy: 2,
        classes: lines,
        nodes: Listed::new(rt.alloc()),
        items: Listed::new(rt.alloc()),
        starts: Listed::new(rt.alloc()),
        ends: Listed::new(rt.alloc()),
        weight: 0,
    };
    let text = write_cert(rt.alloc(), &cert)?;
    let want = "certificate 2\npolicy 2\nclass 0 C rise 4:0\nclass 1 C rise 4:1\nweight 0\n";
    assert_eq!(rt; text.as_slice(), want.as_bytes());
    Ok(())
}
