//! Worked examples: a ring of gates, the ring with a register in it, and the arcs of a small design.
ghost use Rattle.std.specs.Prelude.{◌<◌, length, All};

use crate::faults::GraphFault;
use crate::gathering::{gather, in_order};
use crate::graphs::Arc;
use crate::ordering::order_of;
use bud_base::{Listed, PinId, Text};
use bud_design::{LaunchEdge, Pair, Pin, Timing, Wire};
use bud_syntax::{Dir, Edge};
use std::alloc::{AllocError, Global};
use std::process::Abort;

fn arc(from: u32, to: u32) -> Arc {
    Arc {
        from: PinId(from),
        to: PinId(to),
        least: 0,
        home: 0,
    }
}

fn assert_within(rt: &impl Abort, arcs: &[Arc], pins: u32)
    ensures { All (λ a. (a.from.0 < pins) × (a.to.0 < pins)) arcs.now }
{
    for arc in arcs {
        assert!(rt; arc.from.0 < pins);
        assert!(rt; arc.to.0 < pins);
    }
}

#[test]
fn a_ring_is_a_cycle(rt: HostRuntime) {
    let alloc = rt.alloc();
    let ring = [arc(0, 1), arc(1, 2), arc(2, 3), arc(3, 0)];
    assert_within(&rt, &ring, 4);
    match order_of(alloc, 4, &ring) {
        Err(GraphFault::Cycle(pairs)) => {
            let pairs = pairs.as_slice();
            assert!(rt; pairs.len() == 4);
            assert!(rt; pairs[0].from.0 == 0);
            assert!(rt; pairs[0].to.0 == 1);
            assert!(rt; pairs[3].from.0 == 3);
            assert!(rt; pairs[3].to.0 == 0);
        }
        Err(GraphFault::NoMemory) | Ok(_) => panic!(rt; "the arcs have a cycle"),
    }
}

#[test]
fn a_register_opens_the_ring(rt: HostRuntime) {
    let alloc = rt.alloc();
    let open = [arc(0, 1), arc(1, 2), arc(3, 4), arc(4, 0)];
    assert_within(&rt, &open, 5);
    match order_of(alloc, 5, &open) {
        Ok(order) => {
            let order = order.as_slice();
            assert!(rt; order.len() == 5);
            assert!(rt; order[0].0 == 3);
            assert!(rt; order[1].0 == 4);
            assert!(rt; order[2].0 == 0);
            assert!(rt; order[3].0 == 1);
            assert!(rt; order[4].0 == 2);
        }
        Err(_) => panic!(rt; "the arcs have an order"),
    }
}

/// Fifteen pins: three ports of the top, two of a gate, three of a block, and seven of its leaves.
fn pins(alloc: Global) -> Result<Vec<Pin>, AllocError> {
    let places = [0, 0, 0, 1, 1, 2, 2, 2, 3, 3, 4, 4, 4, 5, 5];
    let mut pins = Vec::new(alloc);
    for place in places {
        pins.push(Pin {
            place,
            port: Text::new(alloc),
            bit: None,
            dir: Dir::Input,
        })?;
    }
    Ok(pins)
}

fn wire(from: u32, to: u32, home: u32) -> Wire {
    Wire {
        from: PinId(from),
        to: PinId(to),
        home,
    }
}

fn wires(alloc: Global) -> Result<Vec<Wire>, AllocError> {
    let wires = [
        wire(7, 2, 0),
        wire(1, 3, 0),
        wire(0, 5, 0),
        wire(4, 6, 0),
        wire(14, 7, 2),
        wire(6, 8, 2),
        wire(5, 10, 2),
        wire(9, 11, 2),
        wire(12, 13, 2),
    ];
    Vec::from_slice(alloc, &wires)
}

fn pair(from: u32, to: u32, value: i64, launch: bool) -> Pair {
    Pair {
        from: PinId(from),
        to: PinId(to),
        value,
        launch,
    }
}

fn timing(alloc: Global) -> Result<Timing, AllocError> {
    let pairs = [
        pair(3, 4, 120, false),
        pair(8, 9, 200, false),
        pair(10, 12, 250, true),
        pair(13, 14, 300, false),
    ];
    let edge = LaunchEdge {
        pin: PinId(10),
        edge: Edge::Rise,
    };
    Ok(Timing {
        wires: Listed::from_vec(vec![in alloc; 0; 9]?),
        pairs: Listed::from_vec(Vec::from_slice(alloc, &pairs)?),
        checks: Listed::new(alloc),
        edges: Listed::from_vec(vec![in alloc; edge]?),
        left_out: 0,
    })
}

fn assert_wires(rt: &impl Abort, wires: &[Wire], pins: usize)
    ensures { All (λ w. w.to.0 < pins) wires.now }
{
    for wire in wires {
        assert!(rt; (wire.to.0 as usize) < pins);
    }
}

fn assert_pairs(rt: &impl Abort, pairs: &[Pair], pins: usize)
    ensures { All (λ x. x.from.0 < pins) pairs.now }
{
    for pair in pairs {
        assert!(rt; (pair.from.0 as usize) < pins);
    }
}

fn assert_edges(rt: &impl Abort, edges: &[LaunchEdge], pins: usize)
    ensures { All (λ x. x.pin.0 < pins) edges.now }
{
    for edge in edges {
        assert!(rt; (edge.pin.0 as usize) < pins);
    }
}

fn is_arc(arc: &Arc, from: u32, to: u32, least: i64, home: u32) -> bool {
    arc.from.0 == from && arc.to.0 == to && arc.least == least && arc.home == home
}

#[test]
fn the_wire_into_a_clock_pin_is_no_arc(rt: HostRuntime) -> Result<(), AllocError> {
    let alloc = rt.alloc();
    let pins = pins(alloc)?;
    let timing = timing(alloc)?;
    let wires = wires(alloc)?;
    assert!(rt; timing.wires.len() == wires.len());
    assert_wires(&rt, &wires, pins.len());
    assert_pairs(&rt, timing.pairs.as_slice(), pins.len());
    assert_edges(&rt, timing.edges.as_slice(), pins.len());
    let arcs = in_order(gather(alloc, &pins, &wires, &timing)?)?;
    assert!(rt; arcs.len() == 12);
    assert!(rt; is_arc(&arcs[0], 0, 5, 0, 0));
    assert!(rt; is_arc(&arcs[2], 3, 4, 120, 1));
    assert!(rt; is_arc(&arcs[4], 6, 8, 0, 2));
    assert!(rt; is_arc(&arcs[5], 7, 2, 0, 0));
    assert!(rt; is_arc(&arcs[8], 10, 12, 250, 4));
    assert!(rt; is_arc(&arcs[11], 14, 7, 0, 2));
    Ok(())
}
