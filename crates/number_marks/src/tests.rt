//! Worked examples.
use crate::{among, below, put_if};
use std::test::Fail;

#[test]
fn numbers_among_others(rt: HostRuntime) -> Result<(), Fail> {
    let mut found = among(rt.alloc(), 8, &[5, 2, 7, 2], &[2, 9, 5])?;
    assert_eq!(rt; found.as_slice(), [5, 2, 2].as_slice());
    put_if(&mut found, 4, false)?;
    put_if(&mut found, 3, true)?;
    assert_eq!(rt; found.as_slice(), [5, 2, 2, 3].as_slice());
    Ok(())
}

#[test]
fn numbers_below_a_count(rt: HostRuntime) -> Result<(), Fail> {
    let found = below(rt.alloc(), 5, &[9, 4, 0, 4])?;
    assert_eq!(rt; found.as_slice(), [0, 4].as_slice());
    Ok(())
}
