ghost use Rattle.std.specs.Prelude.{◌≡◌, ◌<◌, ◌++◌, length, map, filter_map, All, OnOk, IfOk};
ghost use Rattle.requirements.specs.Gathering.{clock_delay, check_delay, unclocked_pin, launch_of, capture_of, AreLaunches, AreCaptures};

use crate::ordering::ordered;
use bud_design::{Capture, Captures, Check, Launch, LaunchEdge, Launches, PinList};
use std::alloc::{AllocError, Global};
use timing_scopes::PinDelay;

/// Adds the delays of the clock pins that a clock reaches.
fn add_clock_delays(
    delays: &mut Vec<PinDelay>,
    edges: &[LaunchEdge],
    reached: &[Option<u32>],
) -> Result<(), AllocError>
    requires { All (λ e. e.pin.0 < length reached.now) edges.now }
    ensures { OnOk result (delays.new.items ≡ delays.old.items ++ filter_map (clock_delay reached.now) edges.now) }
{
    for edge in edges {
        if let Some(clock) = reached[edge.pin.0 as usize] {
            delays.push(PinDelay {
                pin: edge.pin,
                clock,
                edge: edge.edge,
                amount: 0,
            })?;
        }
    }
    Ok(())
}

/// Adds the delays of the setup checks whose clock pin a clock reaches.
fn add_check_delays(
    delays: &mut Vec<PinDelay>,
    checks: &[Check],
    reached: &[Option<u32>],
) -> Result<(), AllocError>
    requires { All (λ x. x.clock.0 < length reached.now) checks.now }
    ensures { OnOk result (delays.new.items ≡ delays.old.items ++ filter_map (check_delay reached.now) checks.now) }
{
    for check in checks {
        if let Some(clock) = reached[check.clock.0 as usize] {
            delays.push(PinDelay {
                pin: check.pin,
                clock,
                edge: check.edge,
                amount: check.amount,
            })?;
        }
    }
    Ok(())
}

/// The clock pins that no clock reaches, in pin order.
pub fn unclocked(
    alloc: Global,
    edges: &[LaunchEdge],
    reached: &[Option<u32>],
) -> Result<PinList, AllocError>
    requires { All (λ e. e.pin.0 < length reached.now) edges.now }
    ensures { IfOk result (λ pins. pins ≡ filter_map (unclocked_pin reached.now) edges.now) }
{
    let mut pins = Vec::new(alloc);
    for edge in edges {
        if reached[edge.pin.0 as usize].is_none() {
            pins.push(edge.pin)?;
        }
    }
    Ok(PinList::from_vec(pins))
}

fn launches_of(alloc: Global, delays: &[PinDelay]) -> Result<Launches, AllocError>
    ensures { IfOk result (λ launches. launches ≡ map launch_of delays.now) }
{
    let mut launches = Vec::new(alloc);
    for delay in delays {
        launches.push(Launch {
            pin: delay.pin,
            clock: delay.clock,
            edge: delay.edge,
            offset: delay.amount,
        })?;
    }
    Ok(Launches::from_vec(launches))
}

fn captures_of(alloc: Global, delays: &[PinDelay]) -> Result<Captures, AllocError>
    ensures { IfOk result (λ captures. captures ≡ map capture_of delays.now) }
{
    let mut captures = Vec::new(alloc);
    for delay in delays {
        captures.push(Capture {
            pin: delay.pin,
            clock: delay.clock,
            edge: delay.edge,
            amount: delay.amount,
        })?;
    }
    Ok(Captures::from_vec(captures))
}

/// The launches of input delays and of the clock pins that a clock reaches.
pub fn launches(
    alloc: Global,
    inputs: &[PinDelay],
    edges: &[LaunchEdge],
    reached: &[Option<u32>],
) -> Result<Launches, AllocError>
    requires { All (λ e. e.pin.0 < length reached.now) edges.now }
    ensures { IfOk result (AreLaunches inputs.now edges.now reached.now) }
{
    let mut delays = Vec::from_slice(alloc, inputs)?;
    add_clock_delays(&mut delays, edges, reached)?;
    let all = ordered(alloc, delays.as_slice())?;
    let made = launches_of(alloc, all.as_slice())?;
    Ok(made)
}

/// The captures of output delays and of the setup checks whose clock pin a clock reaches.
pub fn captures(
    alloc: Global,
    outputs: &[PinDelay],
    checks: &[Check],
    reached: &[Option<u32>],
) -> Result<Captures, AllocError>
    requires { All (λ x. x.clock.0 < length reached.now) checks.now }
    ensures { IfOk result (AreCaptures outputs.now checks.now reached.now) }
{
    let mut delays = Vec::from_slice(alloc, outputs)?;
    add_check_delays(&mut delays, checks, reached)?;
    let all = ordered(alloc, delays.as_slice())?;
    let made = captures_of(alloc, all.as_slice())?;
    Ok(made)
}
