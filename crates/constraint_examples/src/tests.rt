//! Relations, requirements and refusals of timing commands, as `least` prints them.
use bud_shelf::SafeShelf;
use budget_designs::least;
use budget_report::Status;
use budget_steps::{Answer, Said, Stop};
use std::alloc::{AllocError, Global};
use std::process::Abort;
use std::test::Fail;

const CELLS: &str = "`celldefine
module DFF (CK, D, Q); input CK, D; output Q; endmodule
module BUF (A, Z); input A; output Z; endmodule
`endcelldefine
";

/// A wire from port to port, which has no delay.
const WIRE: &str = "module t (in, out); input in; output out; assign out = in; endmodule
";

/// A block with a register between two buffers, behind a buffer of the top.
const CORE: &str = "module core (ck, i, o);
  input ck, i; output o; wire q;
  BUF b1 (.A(i), .Z(d));
  DFF r1 (.CK(ck), .D(d), .Q(q));
  BUF b2 (.A(q), .Z(o));
endmodule
module top (clk, in, out);
  input clk, in; output out; wire m;
  BUF g (.A(in), .Z(m));
  core u (.ck(clk), .i(m), .o(out));
endmodule
";

/// A register whose output stays open.
const SINK: &str = "module t (clk, in); input clk, in; DFF r (.CK(clk), .D(in)); endmodule
";

fn register(alloc: Global, name: &str) -> Result<String, AllocError> {
    format!(in alloc;
        "(CELL (CELLTYPE \"DFF\") (INSTANCE {name}) (DELAY (ABSOLUTE (IOPATH (posedge CK) Q (0.25)))) (TIMINGCHECK (SETUP D (posedge CK) (0.05))))"
    )
}

/// What is said of the modules beside the cells, with these entries of delays and these commands.
fn said(alloc: Global, modules: &str, delays: &str, commands: &str) -> Result<Said, Fail> {
    let netlist = format!(in alloc; "{CELLS}{modules}")?;
    let delays = format!(in alloc; "(DELAYFILE (DIVIDER /) (TIMESCALE 1ns) {delays})")?;
    let mut shelf = SafeShelf::new(alloc);
    shelf.add("v", netlist.as_bytes())?;
    shelf.add("d", delays.as_bytes())?;
    shelf.add("c", commands.as_bytes())?;
    Ok(ended(least(alloc, &mut shelf, "v", "d", "c"))?)
}

fn ended(answer: Result<Answer, Stop>) -> Result<Said, AllocError> {
    match answer {
        Ok(answer) => Ok(answer.said),
        Err(Stop::Refused(said)) => Ok(said),
        Err(Stop::NoMemory) => Err(AllocError),
    }
}

fn compare(
    rt: &(impl Abort + AllocGlobal),
    said: &Said,
    status: Status,
    text: &str,
) -> Result<(), Fail> {
    assert_eq!(rt; str::from_utf8(said.text.as_slice())?, text);
    assert_eq!(rt; said.status, status);
    Ok(())
}

/// Compares what is said of the wire between two clocks that rise at 0, of 10 ns and of 15 ns.
fn wire(rt: &(impl Abort + AllocGlobal), commands: &str, text: &str) -> Result<(), Fail> {
    let commands = format!(in rt.alloc();
        "create_clock -name T -period 10\ncreate_clock -name F -period 15\n{commands}"
    )?;
    let said = said(rt.alloc(), WIRE, "", commands.as_str())?;
    compare(rt, &said, Status::Done, text)
}

#[test]
fn relations_are_the_least_over_all_periods(rt: HostRuntime) -> Result<(), Fail> {
    for (input, output, text) in [
        ("T", "F", "meets 5000\n"),
        ("F", "T", "meets 5000\n"),
        ("T", "T", "meets 10000\n"),
        ("T", "T -clock_fall", "meets 5000\n"),
        ("T -clock_fall", "F -clock_fall", "meets 2500\n"),
    ] {
        let commands = format!(in rt.alloc();
            "set_input_delay 0 -clock {input} [get_ports in]\nset_output_delay 0 -clock {output} [get_ports out]"
        )?;
        wire(&rt, commands.as_str(), text)?;
    }
    for (input, output, text) in [
        ("O", "O -clock_fall", "meets 4999\n"),
        ("O -clock_fall", "O", "meets 5000\n"),
    ] {
        let commands = format!(in rt.alloc();
            "create_clock -name O -period 9.999\nset_input_delay 0 -clock {input} in\nset_output_delay 0 -clock {output} out"
        )?;
        wire(&rt, commands.as_str(), text)?;
    }
    Ok(())
}

/// The wire from the clock of 10 ns to that of 15 ns, under these commands.
fn excepted(rt: &(impl Abort + AllocGlobal), commands: &str, text: &str) -> Result<(), Fail> {
    let commands = format!(in rt.alloc();
        "set_input_delay 0 -clock T in\nset_output_delay 0 -clock F out\n{commands}"
    )?;
    wire(rt, commands.as_str(), text)
}

#[test]
fn false_paths_go_before_maxima_and_those_before_multicycles(rt: HostRuntime) -> Result<(), Fail> {
    for (commands, text) in [
        ("", "meets 5000\n"),
        ("set_multicycle_path 2 -from T", "meets 20000\n"),
        ("set_multicycle_path 2 -start -from T", "meets 15000\n"),
        (
            "set_multicycle_path 3 -to F\nset_multicycle_path 2 -to out",
            "meets 20000\n",
        ),
        (
            "set_multicycle_path 2 -from T\nset_max_delay 4 -from in",
            "meets 4000\n",
        ),
        (
            "set_max_delay 4 -from in\nset_max_delay 3 -from T\nset_multicycle_path 2 -to F",
            "meets 3000\n",
        ),
        (
            "set_max_delay 4 -from in\nset_multicycle_path 2 -from T\nset_false_path -to out",
            "no paths\n",
        ),
        ("set_false_path -hold -to out", "meets 5000\n"),
        ("set_multicycle_path 2 -hold -to out", "meets 5000\n"),
        ("set_false_path -from F", "meets 5000\n"),
        ("set_false_path -from T -to T", "meets 5000\n"),
    ] {
        excepted(&rt, commands, text)?;
    }
    Ok(())
}

#[test]
fn later_delays_take_the_place_of_earlier_ones(rt: HostRuntime) -> Result<(), Fail> {
    for (commands, text) in [
        ("set_input_delay 1 -clock T in", "meets 4000\n"),
        ("set_input_delay 1 -clock T -min in", "meets 5000\n"),
        ("set_input_delay -1 -clock T -add_delay in", "meets 5000\n"),
        ("set_input_delay 1 -clock T -add_delay in", "meets 4000\n"),
        (
            "set_input_delay 1 -clock F -add_delay in\nset_multicycle_path 2 -from T",
            "meets 14000\n",
        ),
        ("set_output_delay 2 -clock T out", "meets 8000\n"),
        ("set_output_delay 2 -clock T -add_delay out", "meets 5000\n"),
        ("set_output_delay 6 -clock T -add_delay out", "meets 4000\n"),
        ("set_output_delay -2 -clock F out", "meets 7000\n"),
    ] {
        excepted(&rt, commands, text)?;
    }
    Ok(())
}

/// Compares what is said of the block under a clock `C` of 2 ns and these commands.
fn core(
    rt: &(impl Abort + AllocGlobal),
    commands: &str,
    status: Status,
    text: &str,
) -> Result<(), Fail> {
    let delays = register(rt.alloc(), "u/r1")?;
    let commands = format!(in rt.alloc();
        "create_clock -name C -period 2 [get_ports clk]\n{commands}"
    )?;
    let said = said(rt.alloc(), CORE, delays.as_str(), commands.as_str())?;
    compare(rt, &said, status, text)
}

#[test]
fn each_refusal_of_objects_is_told(rt: HostRuntime) -> Result<(), Fail> {
    for (commands, text) in [
        (
            "create_clock -name D -period 2 [get_ports x]",
            "design unknown-object x\n",
        ),
        (
            "set_input_delay 0 -clock D [get_ports in]",
            "design unknown-clock D\n",
        ),
        (
            "create_clock -name D -period 2 [get_pins u/b1/A]",
            "design not-a-source u/b1/A\n",
        ),
        (
            "set_input_delay 0 -clock C [get_ports out]",
            "design not-a-start out\n",
        ),
        (
            "set_output_delay 0 -clock C [get_ports in]",
            "design not-an-end in\n",
        ),
        (
            "set_false_path -through [get_clocks C]",
            "design not-a-pin C\n",
        ),
        ("create_clock -name C -period 3", "design clock-twice C\n"),
        (
            "create_clock -name D -period 3 [get_ports clk]",
            "design clock-twice clk\n",
        ),
        (
            "create_clock -name D -period 2 -waveform {1 3}",
            "design bad-waveform D\n",
        ),
        (
            "create_clock -name D -period 0.001",
            "design bad-waveform D\n",
        ),
    ] {
        core(&rt, commands, Status::Design, text)?;
    }
    Ok(())
}

#[test]
fn parts_of_exceptions_have_refusals(rt: HostRuntime) -> Result<(), Fail> {
    for (commands, text) in [
        ("set_false_path -from x", "design unknown-object x\n"),
        (
            "set_false_path -from [get_clocks x]",
            "design unknown-clock x\n",
        ),
        ("set_false_path -from u/r1/D", "design not-a-start u/r1/D\n"),
        ("set_false_path -from u/b1", "design not-a-start u/b1\n"),
        ("set_false_path -from out", "design not-a-start out\n"),
        ("set_false_path -hold -from u", "design not-a-start u\n"),
        ("set_max_delay 1 -to u/r1/CK", "design not-an-end u/r1/CK\n"),
        ("set_max_delay 1 -to u/b2", "design not-an-end u/b2\n"),
        ("set_max_delay 1 -to in", "design not-an-end in\n"),
        (
            "set_max_delay 1 -through [get_cells u/r1]",
            "design not-a-pin u/r1\n",
        ),
        (
            "set_max_delay 1 -through u/r1",
            "design unknown-object u/r1\n",
        ),
        (
            "set_max_delay 1 -through all_clocks",
            "design unknown-object all_clocks\n",
        ),
        (
            "set_max_delay 1 -through [all_clocks]",
            "design not-a-pin all_clocks\n",
        ),
    ] {
        core(&rt, commands, Status::Design, text)?;
    }
    Ok(())
}

#[test]
fn the_first_refusal_is_told(rt: HostRuntime) -> Result<(), Fail> {
    for (commands, text) in [
        (
            "create_clock -name C -period 0.001 [get_ports x]",
            "design clock-twice C\n",
        ),
        (
            "create_clock -name D -period 0.001 [get_ports {out x}]",
            "design not-a-source out\n",
        ),
        (
            "create_clock -name D -period 0.001 [get_ports {x out}]",
            "design unknown-object x\n",
        ),
        (
            "set_input_delay 0 -clock D [get_ports x]",
            "design unknown-clock D\n",
        ),
        (
            "set_input_delay 0 -clock C [get_ports {in out x}]",
            "design not-a-start out\n",
        ),
        (
            "set_false_path -to in -through [get_clocks C] -from u/b1",
            "design not-a-start u/b1\n",
        ),
        (
            "set_false_path -to in -through [get_clocks C] -from [get_clocks C]",
            "design not-a-pin C\n",
        ),
        (
            "set_false_path -to in -through u/i -through x -through [get_clocks C]",
            "design unknown-object x\n",
        ),
        (
            "set_false_path -to in -through u/i",
            "design not-an-end in\n",
        ),
        (
            "set_false_path -from [get_clocks D]\ncreate_clock -name D -period 1\nset_false_path -from x",
            "design unknown-clock D\n",
        ),
    ] {
        core(&rt, commands, Status::Design, text)?;
    }
    Ok(())
}

#[test]
fn cells_stand_for_their_pins(rt: HostRuntime) -> Result<(), Fail> {
    for (commands, text) in [
        ("", "meets 1550\n"),
        ("set_false_path -to r", "no paths\n"),
        ("set_false_path -to [get_pins r/D]", "no paths\n"),
        ("set_false_path -to C", "no paths\n"),
        ("set_false_path -from r", "meets 1550\n"),
        ("set_max_delay 1 -to [get_cells r]", "meets 550\n"),
        ("set_max_delay 1 -from C -to C", "meets 550\n"),
        ("set_max_delay 1 -from [all_inputs]", "meets 550\n"),
        ("set_max_delay 1 -through [all_inputs]", "meets 550\n"),
        ("set_max_delay 1 -through in -through r/D", "meets 550\n"),
        ("set_max_delay 1 -through r/D -through in", "meets 1550\n"),
        ("set_max_delay 1 -through r/D -through r/D", "meets 1550\n"),
        ("set_false_path -through [all_outputs]", "meets 1550\n"),
        (
            "set_false_path -through in -through [all_outputs]",
            "meets 1550\n",
        ),
        ("set_false_path -to [all_outputs]", "meets 1550\n"),
    ] {
        let delays = register(rt.alloc(), "r")?;
        let commands = format!(in rt.alloc();
            "create_clock -name C -period 2 clk\nset_input_delay 0.4 -clock C in\n{commands}"
        )?;
        let said = said(rt.alloc(), SINK, delays.as_str(), commands.as_str())?;
        compare(&rt, &said, Status::Done, text)?;
    }
    Ok(())
}
