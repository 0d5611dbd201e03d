//! Arcs, cycles and orders of small designs.
ghost use Rattle.std.specs.Prelude.{◌<◌, length, All};
ghost use Rattle.bud_design.specs.TimingRules.{StartsInLeaf, IsSoundTiming};
ghost use Rattle.elaborations.specs.Ports.{HasPortsOnce};

use bud_base::PinId;
use bud_design::Timing;
use bud_syntax::Modules;
use delay_bind::bind;
use flat_design::Flat;
use hierarchy::elaborate;
use sdf_reader::read_sdf;
use std::alloc::Global;
use std::process::Abort;
use timing_graph::{Graph, GraphFault, arcs};
use verilog_reader::read_verilog;

const CELLS: &str = "`celldefine
module DFF (CK, D, Q); input CK, D; output Q; endmodule
module BUF (A, Z); input A; output Z; endmodule
`endcelldefine
";

/// These modules beside the cells `DFF` and `BUF`.
fn netlist_of(rt: &impl Abort, alloc: Global, modules: &str) -> Modules
    ensures few { length result < 2147483648 }
    ensures once { All HasPortsOnce result }
{
    let text = format!(in alloc; "{CELLS}{modules}").expect(rt, "memory");
    assert!(rt; text.len() < 2000);
    match read_verilog(alloc, text.as_bytes()) {
        Ok(modules) => modules,
        Err(_) => panic!(rt; "the netlist is read"),
    }
}

/// The flat design of these modules beside the cells.
fn flat_of(rt: &impl Abort, alloc: Global, modules: &str) -> Flat {
    let modules = netlist_of(rt, alloc, modules);
    match elaborate(alloc, modules.as_slice(), None) {
        Ok(flat) => flat,
        Err(_) => panic!(rt; "the netlist is a design"),
    }
}

/// What a delay file of these cells, in ns, says of the design.
fn timing_of(rt: &impl Abort, alloc: Global, flat: &Flat, cells: &str) -> Timing
    ensures sound { IsSoundTiming flat.now result }
    ensures pairs { All (StartsInLeaf flat.now) result.pairs }
{
    let text = format!(in alloc; "(DELAYFILE (DIVIDER /) (TIMESCALE 1ns) {cells})").expect(
        rt, "memory",
    );
    assert!(rt; text.len() < 2000);
    let Ok(file) = read_sdf(alloc, text.as_bytes()) else {
        panic!(rt; "the delay file is read");
    };
    let Ok(timing) = bind(alloc, flat, &file) else {
        panic!(rt; "the delay file fits");
    };
    timing
}

/// The graph of the design under a delay file of these cells, or its cycle.
fn graph_of(rt: &impl Abort, alloc: Global, flat: &Flat, cells: &str) -> Result<Graph, GraphFault> {
    let timing = timing_of(rt, alloc, flat, cells);
    arcs(alloc, flat, &timing)
}

const RING: &str = "module top (x); input x; wire l, m;
BUF a (.A(l), .Z(m)); BUF b (.A(m), .Z(l)); endmodule
";

const RING_DELAYS: &str =
    "(CELL (CELLTYPE \"BUF\") (INSTANCE a) (DELAY (ABSOLUTE (IOPATH A Z (1)))))
(CELL (CELLTYPE \"BUF\") (INSTANCE b) (DELAY (ABSOLUTE (IOPATH A Z (1)))))";

#[test]
fn a_ring_of_gates_is_a_cycle(rt: HostRuntime) {
    let alloc = rt.alloc();
    let flat = flat_of(&rt, alloc, RING);
    let Err(GraphFault::Cycle(pairs)) = graph_of(&rt, alloc, &flat, RING_DELAYS) else {
        panic!(rt; "the arcs have a cycle");
    };
    // The pins `a/A`, `a/Z`, `b/A` and `b/Z` stand behind the port.
    let mut pins = Vec::new(alloc);
    for pair in pairs.as_slice() {
        pins.push(pair.from.0).expect(&rt, "memory");
        pins.push(pair.to.0).expect(&rt, "memory");
    }
    assert!(rt; pins.as_slice() == [1, 2, 2, 3, 3, 4, 4, 1].as_slice());
}

const OPEN_RING: &str = "module top (x); input x; wire l, m;
BUF a (.A(l), .Z(m)); DFF b (.CK(x), .D(m), .Q(l)); endmodule
";

const OPEN_DELAYS: &str =
    "(CELL (CELLTYPE \"BUF\") (INSTANCE a) (DELAY (ABSOLUTE (IOPATH A Z (1)))))
(CELL (CELLTYPE \"DFF\") (INSTANCE b) (DELAY (ABSOLUTE (IOPATH (posedge CK) Q (1))))
 (TIMINGCHECK (SETUP D (posedge CK) (1))))";

#[test]
fn a_register_opens_the_ring(rt: HostRuntime) {
    let alloc = rt.alloc();
    let flat = flat_of(&rt, alloc, OPEN_RING);
    let Ok(graph) = graph_of(&rt, alloc, &flat, OPEN_DELAYS) else {
        panic!(rt; "the arcs have an order");
    };
    assert!(rt; graph.count() == 4);
    // From `b/CK` to `b/Q`, `a/A`, `a/Z` and `b/D`; no arc touches the port, which is pin 0.
    let mut order = Vec::new(alloc);
    for pin in graph.order() {
        if pin.0 != 0 {
            order.push(pin.0).expect(&rt, "memory");
        }
    }
    assert!(rt; order.as_slice() == [3, 5, 1, 2, 4].as_slice());
}

/// A block with a register between two buffers, behind a buffer of the top.
const CORE: &str = "module core (ck, i, o);
  input ck, i; output o; wire q;
  BUF b1 (.A(i), .Z(d));
  DFF r1 (.CK(ck), .D(d), .Q(q));
  BUF b2 (.A(q), .Z(o));
endmodule
module top (clk, in, out);
  input clk, in; output out; wire m;
  BUF g (.A(in), .Z(m));
  core u (.ck(clk), .i(m), .o(out));
endmodule
";

const CORE_DELAYS: &str =
    "(CELL (CELLTYPE \"BUF\") (INSTANCE g) (DELAY (ABSOLUTE (IOPATH A Z (0.10) (0.12)))))
(CELL (CELLTYPE \"BUF\") (INSTANCE u/b1) (DELAY (ABSOLUTE (IOPATH A Z (0.20) (0.15)))))
(CELL (CELLTYPE \"BUF\") (INSTANCE u/b2) (DELAY (ABSOLUTE (IOPATH A Z (0.30)))))
(CELL (CELLTYPE \"DFF\") (INSTANCE u/r1) (DELAY (ABSOLUTE (IOPATH (posedge CK) Q (0.25))))
 (TIMINGCHECK (SETUP D (posedge CK) (0.05)) (HOLD D (posedge CK) (0.01))))";

/// Whether an arc joins the pins of these names.
fn joins(rt: &impl Abort, flat: &Flat, graph: &Graph, from: &str, to: &str) -> bool {
    let from: PinId = flat.find_pin(from.as_bytes()).expect(rt, "a pin");
    let to: PinId = flat.find_pin(to.as_bytes()).expect(rt, "a pin");
    graph.find(from, to).is_some()
}

#[test]
fn wires_into_clock_pins_are_no_arcs(rt: HostRuntime) {
    let alloc = rt.alloc();
    let flat = flat_of(&rt, alloc, CORE);
    let Ok(graph) = graph_of(&rt, alloc, &flat, CORE_DELAYS) else {
        panic!(rt; "the arcs have an order");
    };
    assert!(rt; graph.count() == 12);
    for (from, to, joined) in [
        ("clk", "u/ck", true),
        ("u/ck", "u/r1/CK", false),
        ("u/r1/CK", "u/r1/Q", true),
        ("in", "g/A", true),
        ("g/A", "in", false),
        ("u/o", "out", true),
        ("u/r1/D", "u/r1/Q", false),
    ] {
        assert!(rt; joins(&rt, &flat, &graph, from, to) == joined);
    }
}
