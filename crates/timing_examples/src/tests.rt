//! Expected delays of small designs.
ghost use Rattle.std.specs.Prelude.{◌<◌, length, All};
ghost use Rattle.elaborations.specs.Ports.{HasPortsOnce};

use bud_design::Timing;
use bud_syntax::Modules;
use delay_bind::bind;
use flat_design::Flat;
use hierarchy::elaborate;
use sdf_reader::read_sdf;
use std::alloc::Global;
use std::process::Abort;
use verilog_reader::read_verilog;

const CELLS: &str = "`celldefine
module DFF (CK, D, Q); input CK, D; output Q; endmodule
module BUF (A, Z); input A; output Z; endmodule
`endcelldefine
";

/// These modules beside the cells `DFF` and `BUF`.
fn netlist_of(rt: &impl Abort, alloc: Global, modules: &str) -> Modules
    ensures few { length result < 2147483648 }
    ensures once { All HasPortsOnce result }
{
    let text = format!(in alloc; "{CELLS}{modules}").expect(rt, "memory");
    assert!(rt; text.len() < 2000);
    match read_verilog(alloc, text.as_bytes()) {
        Ok(modules) => modules,
        Err(_) => panic!(rt; "the netlist is read"),
    }
}

/// The flat design of these modules beside the cells.
fn flat_of(rt: &impl Abort, alloc: Global, modules: &str) -> Flat {
    let modules = netlist_of(rt, alloc, modules);
    match elaborate(alloc, modules.as_slice(), None) {
        Ok(flat) => flat,
        Err(_) => panic!(rt; "the netlist is a design"),
    }
}

/// What a delay file of these cells, in ns, says of the design.
fn timing_of(rt: &impl Abort, alloc: Global, flat: &Flat, cells: &str) -> Timing {
    let text = format!(in alloc; "(DELAYFILE (DIVIDER /) (TIMESCALE 1ns) {cells})").expect(
        rt, "memory",
    );
    assert!(rt; text.len() < 2000);
    let Ok(file) = read_sdf(alloc, text.as_bytes()) else {
        panic!(rt; "the delay file is read");
    };
    let Ok(timing) = bind(alloc, flat, &file) else {
        panic!(rt; "the delay file fits");
    };
    timing
}

#[test]
fn the_greatest_of_several_entries_counts(rt: HostRuntime) {
    let alloc = rt.alloc();
    let flat = flat_of(
        &rt,
        alloc,
        "module top (in, out); input in; output out; wire l, m, n;
         BUF a (.A(in), .Z(l)); BUF b (.A(l), .Z(m)); BUF c (.A(m), .Z(n)); BUF d (.A(n), .Z(out));
         endmodule",
    );
    let timing = timing_of(
        &rt,
        alloc,
        &flat,
        "(CELL (CELLTYPE \"BUF\") (INSTANCE a) (DELAY (ABSOLUTE (IOPATH A Z (1.2:1.5:)))))
         (CELL (CELLTYPE \"BUF\") (INSTANCE b) (DELAY (ABSOLUTE (IOPATH A Z (0.0001)))))
         (CELL (CELLTYPE \"BUF\") (INSTANCE c) (DELAY (ABSOLUTE
          (COND x==1 (IOPATH A Z (0.045))) (COND x==0 (IOPATH A Z (0.030))))))
         (CELL (CELLTYPE \"BUF\") (INSTANCE d) (DELAY (ABSOLUTE (IOPATH A Z ()))))",
    );
    let mut values = Vec::new(alloc);
    for pair in timing.pairs.as_slice() {
        values.push(pair.value).expect(&rt, "memory");
    }
    assert!(rt; values.as_slice() == [1500, 1, 45, 0].as_slice());
}

#[test]
fn a_wire_carries_what_is_left(rt: HostRuntime) {
    let alloc = rt.alloc();
    let flat = flat_of(
        &rt,
        alloc,
        "module w (i, o); input i; output o; assign o = i; endmodule
         module top (in, out); input in; output out; w f (.i(in), .o(out)); endmodule",
    );
    let timing = timing_of(
        &rt,
        alloc,
        &flat,
        "(CELL (CELLTYPE \"top\") (INSTANCE) (DELAY (ABSOLUTE
         (INTERCONNECT in f/i (0.005)) (INTERCONNECT in out (0.012)))))",
    );
    // The wires into `out`, `f/i` and `f/o`.
    assert!(rt; timing.wires.as_slice() == [7, 5, 0].as_slice());
}

#[test]
fn checks_make_registers(rt: HostRuntime) {
    let alloc = rt.alloc();
    let flat = flat_of(
        &rt,
        alloc,
        "module top (clk, d, q); input clk, d; output q; DFF r (.CK(clk), .D(d), .Q(q)); endmodule",
    );
    let timing = timing_of(
        &rt,
        alloc,
        &flat,
        "(CELL (CELLTYPE \"DFF\") (INSTANCE r)
          (DELAY (ABSOLUTE (IOPATH (posedge CK) Q (0.25))))
          (TIMINGCHECK (SETUP D (posedge CK) (0.05)) (SETUPHOLD D (posedge CK) (0.07) (0.01))
           (SETUP D (negedge CK) (-0.02)) (HOLD D (posedge CK) (0.01))))",
    );
    let mut amounts = Vec::new(alloc);
    for check in timing.checks.as_slice() {
        amounts.push(check.amount).expect(&rt, "memory");
    }
    assert!(rt; amounts.as_slice() == [70, -20].as_slice());
    assert!(rt; timing.edges.len() == 1);
    assert!(rt; timing.left_out == 0);
}
