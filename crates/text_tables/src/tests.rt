//! A worked example.
use crate::{Standing, TextTable};
use std::test::Fail;

#[test]
fn equal_texts_stand_together(rt: HostRuntime) -> Result<(), Fail> {
    let alloc = rt.alloc();
    let mut table = TextTable::new(alloc);
    table.enter(alloc, b"a", 0)?;
    table.enter(alloc, b"b", 1)?;
    table.enter(alloc, b"a", 2)?;
    assert_eq!(rt;
        table.find(b"a"),
        Some(Standing {
            first: 0,
            alone: false
        })
    );
    assert_eq!(rt;
        table.find(b"b"),
        Some(Standing {
            first: 1,
            alone: true
        })
    );
    assert_eq!(rt; table.find(b"ab"), None);
    Ok(())
}
