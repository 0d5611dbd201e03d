//! Worked examples.
use crate::prefix;
use bud_base::{Listed, Text};
use bud_design::Clock;
use std::alloc::{AllocError, Global};
use std::test::Fail;

fn clock(alloc: Global, name: &[u8]) -> Result<Clock, AllocError> {
    Ok(Clock {
        name: Text::from_slice(alloc, name)?,
        period: 10,
        rise: 0,
        fall: 5,
        sources: Listed::new(alloc),
    })
}

#[test]
fn a_prefix_that_no_clock_has(rt: HostRuntime) -> Result<(), Fail> {
    let alloc = rt.alloc();
    let mut clocks = vec![in alloc; clock(alloc, b"clk")?, clock(alloc, b"bud")?]?;
    assert_eq!(rt; prefix(alloc, &clocks)?.as_slice(), b"bud_".as_slice());
    clocks.push(clock(alloc, b"xbud_")?)?;
    clocks.push(clock(alloc, b"bud_clk")?)?;
    assert_eq!(rt; prefix(alloc, &clocks)?.as_slice(), b"xxbud_".as_slice());
    Ok(())
}
