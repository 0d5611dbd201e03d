//! `least` on small designs, with what it prints.
use bud_shelf::SafeShelf;
use budget_designs::least;
use budget_report::Status;
use budget_steps::{Answer, Said, Stop};
use std::alloc::{AllocError, Global};
use std::process::Abort;
use std::test::Fail;

/// A block with a register between two buffers, behind a buffer of the top.
const CORE: &str = "`celldefine
module DFF (CK, D, Q); input CK, D; output Q; endmodule
module BUF (A, Z); input A; output Z; endmodule
`endcelldefine
module core (ck, i, o);
  input ck, i; output o; wire q;
  BUF b1 (.A(i), .Z(d));
  DFF r1 (.CK(ck), .D(d), .Q(q));
  BUF b2 (.A(q), .Z(o));
endmodule
module top (clk, in, out);
  input clk, in; output out; wire m;
  BUF g (.A(in), .Z(m));
  core u (.ck(clk), .i(m), .o(out));
endmodule
";

const CORE_DELAYS: &str = "(DELAYFILE (SDFVERSION \"3.0\") (DIVIDER /) (TIMESCALE 1ns)
(CELL (CELLTYPE \"BUF\") (INSTANCE g) (DELAY (ABSOLUTE (IOPATH A Z (0.10) (0.12)))))
(CELL (CELLTYPE \"BUF\") (INSTANCE u/b1) (DELAY (ABSOLUTE (IOPATH A Z (0.20) (0.15)))))
(CELL (CELLTYPE \"BUF\") (INSTANCE u/b2) (DELAY (ABSOLUTE (IOPATH A Z (0.30)))))
(CELL (CELLTYPE \"DFF\") (INSTANCE u/r1) (DELAY (ABSOLUTE (IOPATH (posedge CK) Q (0.25))))
 (TIMINGCHECK (SETUP D (posedge CK) (0.05)) (HOLD D (posedge CK) (0.01))))
";

const CORE_COMMANDS: &str = "create_clock -name C -period 2 [get_ports clk]
set_input_delay 0.4 -clock C [get_ports in]
set_output_delay 0.5 -clock C [get_ports out]
";

/// What is said of a design by its three texts.
fn said(alloc: Global, netlist: &str, delays: &str, constraints: &str) -> Result<Said, Fail> {
    let mut shelf = SafeShelf::new(alloc);
    shelf.add("v", netlist.as_bytes())?;
    shelf.add("d", delays.as_bytes())?;
    shelf.add("c", constraints.as_bytes())?;
    Ok(ended(least(alloc, &mut shelf, "v", "d", "c"))?)
}

fn ended(answer: Result<Answer, Stop>) -> Result<Said, AllocError> {
    match answer {
        Ok(answer) => Ok(answer.said),
        Err(Stop::Refused(said)) => Ok(said),
        Err(Stop::NoMemory) => Err(AllocError),
    }
}

fn compare(
    rt: &(impl Abort + AllocGlobal),
    said: &Said,
    status: Status,
    text: &str,
) -> Result<(), Fail> {
    assert_eq!(rt; str::from_utf8(said.text.as_slice())?, text);
    assert_eq!(rt; said.status, status);
    Ok(())
}

/// The block's design with these lines behind its delays and its commands.
fn core(alloc: Global, delays: &str, commands: &str) -> Result<Said, Fail> {
    let delays = format!(in alloc; "{CORE_DELAYS}{delays})")?;
    let commands = format!(in alloc; "{CORE_COMMANDS}{commands}")?;
    said(alloc, CORE, delays.as_str(), commands.as_str())
}

#[test]
fn the_least_slack_of_a_design(rt: HostRuntime) -> Result<(), Fail> {
    for (commands, text) in [
        ("", "meets 950\n"),
        ("set_max_delay 1 -through [get_pins g/Z]", "meets 230\n"),
        (
            "set_max_delay 1 -through [get_pins u/b1/Z] -through [get_pins g/Z]",
            "meets 950\n",
        ),
        (
            "set_false_path -hold -from [get_pins u/r1/CK]",
            "meets 950\n",
        ),
    ] {
        compare(&rt, &core(rt.alloc(), "", commands)?, Status::Done, text)?;
    }
    let delays = format!(in rt.alloc(); "{CORE_DELAYS})")?;
    let clock = "create_clock -name C -period 2 [get_ports clk]";
    let none = said(rt.alloc(), CORE, delays.as_str(), clock)?;
    compare(&rt, &none, Status::Done, "no paths\n")
}

#[test]
fn a_worst_path_where_one_is_violated(rt: HostRuntime) -> Result<(), Fail> {
    let slow = "(CELL (CELLTYPE \"BUF\") (INSTANCE u/b2) (DELAY (ABSOLUTE (IOPATH A Z (1.30)))))";
    let late = core(rt.alloc(), slow, "")?;
    let text = "violated -50
class 0 C rise
start u/r1/CK 0 0
arc u/r1/CK u/r1/Q 250
arc u/r1/Q u/b2/A 0
arc u/b2/A u/b2/Z 1300
arc u/b2/Z u/o 0
arc u/o out 0
end out 0 1500
";
    compare(&rt, &late, Status::Violated, text)?;
    let through = core(rt.alloc(), "", "set_max_delay 0.5 -through [get_pins g/Z]")?;
    let text = "violated -270
class 0 C rise 4:0
class 1 C rise 4:1
start in 0 400
arc in g/A 0
arc g/A g/Z 120
arc g/Z u/i 0
arc u/i u/b1/A 0
arc u/b1/A u/b1/Z 200
arc u/b1/Z u/r1/D 0
end u/r1/D 1 450
";
    compare(&rt, &through, Status::Violated, text)
}

/// Commands as another tool writes them.
const WRITTEN: &str = "# Created by write_sdc
set sdc_version 2.1
set_units -time ns -resistance kOhm -capacitance pF -voltage V -current mA
current_design top
create_clock [get_ports clk] -name C -period 2 -waveform {0 1}
set_false_path -hold \\
  -from [list [get_pins {u/r1/CK}]]
set_input_delay -clock C -max 0.4 [get_ports in]
set_input_delay -clock C -min 0.1 [get_ports in]
set_output_delay -clock C 0.5 [get_ports out]
";

#[test]
fn commands_as_a_tool_writes_them(rt: HostRuntime) -> Result<(), Fail> {
    let delays = format!(in rt.alloc(); "{CORE_DELAYS})")?;
    let load = format!(in rt.alloc(); "refused c {} command set_load\n", WRITTEN.len())?;
    for (line, status, text) in [
        ("", Status::Done, "meets 950\n"),
        (
            "set_load 0.01 [get_ports out]\n",
            Status::Refused,
            load.as_str(),
        ),
        (
            "set_false_path -from u/r1/Q\n",
            Status::Design,
            "design not-a-start u/r1/Q\n",
        ),
    ] {
        let commands = format!(in rt.alloc(); "{WRITTEN}{line}")?;
        let written = said(rt.alloc(), CORE, delays.as_str(), commands.as_str())?;
        compare(&rt, &written, status, text)?;
    }
    Ok(())
}

/// Two blocks, each with a register, under two clocks.
const PAIR: &str = "`celldefine
module DFF (CK, D, Q); input CK, D; output Q; endmodule
module AND2 (A, B, Z); input A, B; output Z; endmodule
`endcelldefine
module m1 (k, a, y); input k, a; output y;
  DFF r (.CK(k), .D(a), .Q(q)); AND2 g (.A(a), .B(q), .Z(y));
endmodule
module m2 (k, a, y); input k, a; output y;
  DFF s (.CK(k), .D(a), .Q(y));
endmodule
module top (p1, p2, in, out); input p1, p2, in; output out;
  m1 x1 (.k(p2), .a(in), .y(w)); m2 x2 (.k(p1), .a(w), .y(out));
endmodule
";

const PAIR_COMMANDS: &str = "create_clock -name C1 -period 10 [get_ports p1]
create_clock -name C2 -period 15 [get_ports p2]
set_input_delay 1 -clock C1 [get_ports in]
set_output_delay 2 -clock C1 [get_ports out]
";

const FIRST_BLOCK: &str = "set_units -time ps
current_design {m1}
create_clock -name {C2} -period 15000 -waveform {0 7500} [get_ports {k}]
create_clock -name {bud_0} -period 10000 -waveform {0 5000}
create_clock -name {bud_1} -period 15000 -waveform {0 7500}
set_input_delay 1000 -clock {bud_0} -max -add_delay [get_ports {a}]
set_output_delay 5700 -clock {bud_0} -max -add_delay [get_ports {y}]
set_output_delay 11100 -clock {bud_1} -max -add_delay [get_ports {y}]
set_false_path -setup -from [get_clocks {bud_0}] -to [get_clocks {bud_1}]
set_false_path -setup -from [get_pins {r/CK}] -to [get_clocks {bud_0}]
";

const SECOND_BLOCK: &str = "set_units -time ps
current_design {m2}
create_clock -name {C1} -period 10000 -waveform {0 5000} [get_ports {k}]
create_clock -name {bud_0} -period 10000 -waveform {0 5000}
create_clock -name {bud_1} -period 15000 -waveform {0 7500}
set_input_delay 4300 -clock {bud_0} -max -add_delay [get_ports {a}]
set_input_delay 3900 -clock {bud_1} -max -add_delay [get_ports {a}]
set_output_delay 9500 -clock {bud_0} -max -add_delay [get_ports {y}]
set_false_path -setup -from [get_clocks {bud_1}] -to [get_clocks {bud_0}]
";

/// The entry of a register, in ps.
fn register(alloc: Global, name: &str) -> Result<String, AllocError> {
    format!(in alloc;
        "(CELL (CELLTYPE \"DFF\") (INSTANCE {name}) (DELAY (ABSOLUTE (IOPATH (posedge CK) Q (500)))) (TIMINGCHECK (SETUP D (posedge CK) (100))))"
    )
}

/// The entry of a gate, in ps.
fn gate(alloc: Global, name: &str) -> Result<String, AllocError> {
    format!(in alloc;
        "(CELL (CELLTYPE \"AND2\") (INSTANCE {name}) (DELAY (ABSOLUTE (IOPATH A Z (300)) (IOPATH B Z (400)))))"
    )
}

/// What is said of the pair or of one of its blocks.
fn pair(alloc: Global, cells: &str, commands: &str) -> Result<Said, Fail> {
    let delays = format!(in alloc; "(DELAYFILE (DIVIDER /) (TIMESCALE 1ps) {cells})")?;
    said(alloc, PAIR, delays.as_str(), commands)
}

#[test]
fn two_clocks_and_blocks_of_their_own(rt: HostRuntime) -> Result<(), Fail> {
    let alloc = rt.alloc();
    let first = register(alloc, "x1/r")?;
    let second = register(alloc, "x2/s")?;
    let third = gate(alloc, "x1/g")?;
    let all = format!(in alloc; "{first}{second}{third}")?;
    compare(
        &rt,
        &pair(alloc, all.as_str(), PAIR_COMMANDS)?,
        Status::Done,
        "meets 3900\n",
    )?;
    let first = register(alloc, "r")?;
    let third = gate(alloc, "g")?;
    let inside = format!(in alloc; "{first}{third}")?;
    compare(
        &rt,
        &pair(alloc, inside.as_str(), FIRST_BLOCK)?,
        Status::Done,
        "meets 3000\n",
    )?;
    let second = register(alloc, "s")?;
    compare(
        &rt,
        &pair(alloc, second.as_str(), SECOND_BLOCK)?,
        Status::Done,
        "meets 0\n",
    )
}

const RING: &str = "`celldefine
module DFF (CK, D, Q); input CK, D; output Q; endmodule
module BUF (A, Z); input A; output Z; endmodule
`endcelldefine
module t (ck); input ck; BUF a (.A(n2), .Z(n1));
";

const RING_DELAYS: &str = "(DELAYFILE (DIVIDER /)
(CELL (CELLTYPE \"BUF\") (INSTANCE a) (DELAY (ABSOLUTE (IOPATH A Z (1)))))
";

#[test]
fn a_register_opens_a_ring(rt: HostRuntime) -> Result<(), Fail> {
    let clock = "create_clock -name C -period 2 [get_ports ck]";
    for (instance, delays, status, text) in [
        (
            "BUF b (.A(n1), .Z(n2)); endmodule",
            "(CELL (CELLTYPE \"BUF\") (INSTANCE b) (DELAY (ABSOLUTE (IOPATH A Z (1))))))",
            Status::Design,
            "design cycle 4\narc a/A a/Z\narc a/Z b/A\narc b/A b/Z\narc b/Z a/A\n",
        ),
        (
            "DFF b (.CK(ck), .D(n1), .Q(n2)); endmodule",
            "(CELL (CELLTYPE \"DFF\") (INSTANCE b) (DELAY (ABSOLUTE (IOPATH (posedge CK) Q (0.25)))) (TIMINGCHECK (SETUP D (posedge CK) (0.05)))))",
            Status::Done,
            "meets 700\n",
        ),
    ] {
        let netlist = format!(in rt.alloc(); "{RING}{instance}")?;
        let delays = format!(in rt.alloc(); "{RING_DELAYS}{delays}")?;
        let ring = said(rt.alloc(), netlist.as_str(), delays.as_str(), clock)?;
        compare(&rt, &ring, status, text)?;
    }
    Ok(())
}

#[test]
fn wires_have_delays_and_names_their_bits(rt: HostRuntime) -> Result<(), Fail> {
    let ports = "create_clock -name V -period 1
set_input_delay 0 -clock V [all_inputs]
set_output_delay 0 -clock V [all_outputs]
";
    let bits = "`celldefine
module BUF (A, Z); input A; output Z; endmodule
`endcelldefine
module t (\\a[3] , a, y, z); input \\a[3] ; input [3:0] a; output y, z;
  BUF p (.A(\\a[3] ), .Z(y)); BUF q (.A(a[3]), .Z(z));
endmodule
";
    let delays = "(DELAYFILE (DIVIDER /)
(CELL (CELLTYPE \"BUF\") (INSTANCE p) (DELAY (ABSOLUTE (IOPATH A Z (0.010)))))
(CELL (CELLTYPE \"BUF\") (INSTANCE q) (DELAY (ABSOLUTE (IOPATH A Z (0.010)))))
(CELL (CELLTYPE \"t\") (INSTANCE) (DELAY (ABSOLUTE (INTERCONNECT a\\[3\\] p/A (0.003)) (INTERCONNECT a[3] q/A (0.004)))))
)";
    let meets = said(rt.alloc(), bits, delays, ports)?;
    compare(&rt, &meets, Status::Done, "meets 986\n")?;
    let feed = "module w (i, o); input i; output o; assign o = i; endmodule
module t (in, out); input in; output out; w f (.i(in), .o(out)); endmodule
";
    let delays = "(DELAYFILE (DIVIDER /)
(CELL (CELLTYPE \"t\") (INSTANCE) (DELAY (ABSOLUTE (INTERCONNECT in f/i (0.005)) (INTERCONNECT in out (0.012)))))
)";
    let meets = said(rt.alloc(), feed, delays, ports)?;
    compare(&rt, &meets, Status::Done, "meets 988\n")
}
