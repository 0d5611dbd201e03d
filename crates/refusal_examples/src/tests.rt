//! Netlists and delay files that are refused, and files that are cut, missing or too long.
use bud_shelf::{LONGEST_FILE, MemShelf, SafeShelf};
use budget_designs::least;
use budget_report::Status;
use budget_steps::{Answer, Said, Stop};
use std::alloc::{AllocError, Global};
use std::process::Abort;
use std::test::Fail;

const CELLS: &str = "`celldefine
module DFF (CK, D, Q); input CK, D; output Q; endmodule
module BUF (A, Z); input A; output Z; endmodule
`endcelldefine
";

/// A block with a register between two buffers, behind a buffer of the top.
const CORE: &str = "module core (ck, i, o);
  input ck, i; output o; wire q;
  BUF b1 (.A(i), .Z(d));
  DFF r1 (.CK(ck), .D(d), .Q(q));
  BUF b2 (.A(q), .Z(o));
endmodule
module top (clk, in, out);
  input clk, in; output out; wire m;
  BUF g (.A(in), .Z(m));
  core u (.ck(clk), .i(m), .o(out));
endmodule
";

const CORE_DELAYS: &str = "(DELAYFILE (DIVIDER /) (TIMESCALE 1ns)
(CELL (CELLTYPE \"BUF\") (INSTANCE u/b2) (DELAY (ABSOLUTE (IOPATH A Z (0.30)))))
(CELL (CELLTYPE \"DFF\") (INSTANCE u/r1) (DELAY (ABSOLUTE (IOPATH (posedge CK) Q (0.25))))
 (TIMINGCHECK (SETUP D (posedge CK) (0.05)))))";

const CORE_COMMANDS: &str = "create_clock -name C -period 2 [get_ports clk]
set_output_delay 0.5 -clock C [get_ports out]
";

/// What is said of a design by its three texts.
fn said(alloc: Global, netlist: &[u8], delays: &[u8], commands: &[u8]) -> Result<Said, Fail> {
    let mut shelf = SafeShelf::new(alloc);
    shelf.add("v", netlist)?;
    shelf.add("d", delays)?;
    shelf.add("c", commands)?;
    Ok(ended(least(alloc, &mut shelf, "v", "d", "c"))?)
}

fn ended(answer: Result<Answer, Stop>) -> Result<Said, AllocError> {
    match answer {
        Ok(answer) => Ok(answer.said),
        Err(Stop::Refused(said)) => Ok(said),
        Err(Stop::NoMemory) => Err(AllocError),
    }
}

fn compare(
    rt: &(impl Abort + AllocGlobal),
    said: &Said,
    status: Status,
    text: &str,
) -> Result<(), Fail> {
    assert_eq!(rt; str::from_utf8(said.text.as_slice())?, text);
    assert_eq!(rt; said.status, status);
    Ok(())
}

/// Compares what is said of these modules beside the cells.
fn netlist(
    rt: &(impl Abort + AllocGlobal),
    modules: &str,
    commands: &str,
    status: Status,
    text: &str,
) -> Result<(), Fail> {
    let all = format!(in rt.alloc(); "{CELLS}{modules}")?;
    let said = said(
        rt.alloc(),
        all.as_bytes(),
        b"(DELAYFILE (DIVIDER /))",
        commands.as_bytes(),
    )?;
    compare(rt, &said, status, text)
}

#[test]
fn netlists_without_a_design(rt: HostRuntime) -> Result<(), Fail> {
    for (modules, commands, text) in [
        (
            "module t (); endmodule module t (); endmodule",
            "",
            "design module-twice t\n",
        ),
        ("", "", "design no-top\n"),
        (
            "module t (); endmodule",
            "current_design u",
            "design no-top u\n",
        ),
        (
            "module t (); endmodule",
            "current_design BUF",
            "design no-top BUF\n",
        ),
        (
            "module t (); endmodule module u (); endmodule module v (); endmodule",
            "",
            "design many-tops t u\n",
        ),
        (
            "module t (); X a (); endmodule",
            "",
            "design unknown-module X\n",
        ),
        (
            "module t (); r a (); endmodule module r (); r b (); endmodule",
            "",
            "design recursive r\n",
        ),
        ("module t (x); inout x; endmodule", "", "design inout x\n"),
        (
            "module t (); wire n; BUF n (); endmodule",
            "",
            "design name-twice n\n",
        ),
    ] {
        netlist(&rt, modules, commands, Status::Design, text)?;
    }
    Ok(())
}

#[test]
fn nets_that_do_not_join(rt: HostRuntime) -> Result<(), Fail> {
    for (modules, text) in [
        (
            "module t (); BUF a (.Q(n)); endmodule",
            "design unknown-port Q\n",
        ),
        (
            "module t (); BUF a (n, m, l); endmodule",
            "design unknown-port a\n",
        ),
        (
            "module t (); wire n; BUF a (.A(n[0])); endmodule",
            "design select n\n",
        ),
        (
            "module t (); wire [1:0] n; BUF a (.A(n)); endmodule",
            "design width A\n",
        ),
        (
            "module t (); wire [1:0] n; wire m; assign m = n; endmodule",
            "design width m\n",
        ),
        (
            "module t (in, n); input in; output n; BUF a (.A(in), .Z(n)); w f (.i(in), .o(n)); endmodule module w (i, o); input i; output o; assign o = i; endmodule",
            "design two-drivers n\n",
        ),
        (
            "module t (); w f (); endmodule module w (); wire [1:0] n; BUF a (.Z(n[0])); BUF b (.Z(n[0])); endmodule",
            "design two-drivers f/n[0]\n",
        ),
    ] {
        netlist(&rt, modules, "", Status::Design, text)?;
    }
    netlist(
        &rt,
        "module t (a, b, c, d, e); input [1000000:0] a, b, c, d, e; endmodule",
        "",
        Status::Limit,
        "limit pins 4194305\n",
    )
}

/// A top with a chain of so many instances of plain modules below it: each module is named by the levels below it.
fn nest(alloc: Global, depth: usize) -> Result<String, AllocError> {
    let mut text = String::from_str(alloc, "module m0 (); endmodule\n")?;
    for below in 0..depth {
        let module = format!(in alloc; "module m{} (); m{below} a (); endmodule\n", below + 1)?;
        text.push_str(module.as_str())?;
    }
    Ok(text)
}

#[test]
fn instances_nest_to_256_levels(rt: HostRuntime) -> Result<(), Fail> {
    for (depth, status, text) in [
        (256, Status::Done, "no paths\n"),
        (257, Status::Limit, "limit depth 257\n"),
    ] {
        let modules = nest(rt.alloc(), depth)?;
        netlist(&rt, modules.as_str(), "", status, text)?;
    }
    Ok(())
}

/// Compares what is said of the block under a delay file of these entries.
fn delays(rt: &(impl Abort + AllocGlobal), cells: &str, text: &str) -> Result<(), Fail> {
    let all = format!(in rt.alloc(); "{CELLS}{CORE}")?;
    let file = format!(in rt.alloc(); "(DELAYFILE (DIVIDER /) (TIMESCALE 1ns) {cells})")?;
    let said = said(rt.alloc(), all.as_bytes(), file.as_bytes(), b"")?;
    compare(rt, &said, Status::Design, text)
}

#[test]
fn rows_that_name_nothing(rt: HostRuntime) -> Result<(), Fail> {
    for (cells, text) in [
        (
            "(CELL (CELLTYPE \"BUF\") (INSTANCE u/b3))",
            "design unknown-instance u/b3\n",
        ),
        (
            "(CELL (CELLTYPE \"DFF\") (INSTANCE u/b1))",
            "design wrong-cell u/b1\n",
        ),
        (
            "(CELL (CELLTYPE \"core\") (INSTANCE u) (DELAY (ABSOLUTE (IOPATH i o (1)))))",
            "design not-a-leaf u\n",
        ),
        (
            "(CELL (CELLTYPE \"BUF\") (INSTANCE g) (DELAY (ABSOLUTE (IOPATH Z A (1)))))",
            "design unknown-pin g/Z\n",
        ),
        (
            "(CELL (CELLTYPE \"BUF\") (INSTANCE g) (DELAY (ABSOLUTE (IOPATH A X (1)))))",
            "design unknown-pin g/X\n",
        ),
        (
            "(CELL (CELLTYPE \"top\") (INSTANCE) (DELAY (ABSOLUTE (INTERCONNECT in u/i (1)))))",
            "design not-one-net in u/i\n",
        ),
    ] {
        delays(&rt, cells, text)?;
    }
    Ok(())
}

#[test]
fn registers_and_values_that_do_not_fit(rt: HostRuntime) -> Result<(), Fail> {
    for (cells, text) in [
        (
            "(CELL (CELLTYPE \"DFF\") (INSTANCE u/r1) (TIMINGCHECK (SETUP D CK (1))))",
            "design mixed-edge u/r1/CK\n",
        ),
        (
            "(CELL (CELLTYPE \"DFF\") (INSTANCE u/r1) (DELAY (ABSOLUTE (IOPATH (posedge CK) Q (1)) (IOPATH (negedge CK) Q (1))))
             (TIMINGCHECK (SETUP D (posedge CK) (1))))",
            "design mixed-edge u/r1/CK\n",
        ),
        (
            "(CELL (CELLTYPE \"DFF\") (INSTANCE u/r1) (DELAY (ABSOLUTE (IOPATH D Q (1))))
             (TIMINGCHECK (SETUP D (posedge CK) (1))))",
            "design latch u/r1\n",
        ),
        (
            "(CELL (CELLTYPE \"BUF\") (INSTANCE u/b1) (DELAY (ABSOLUTE (IOPATH A Z (-0.001)))))",
            "design negative-delay u/b1/A u/b1/Z\n",
        ),
        (
            "(CELL (CELLTYPE \"top\") (INSTANCE) (DELAY (ABSOLUTE
             (INTERCONNECT g/Z u/i (0.005)) (INTERCONNECT g/Z u/b1/A (0.003)))))",
            "design negative-rest u/b1/A\n",
        ),
        (
            "(CELL (CELLTYPE \"BUF\") (INSTANCE u/b1) (DELAY (ABSOLUTE (IOPATH A Z (-0.001)))))
             (CELL (CELLTYPE \"DFF\") (INSTANCE u/r1) (TIMINGCHECK (SETUP D CK (1))))",
            "design mixed-edge u/r1/CK\n",
        ),
        (
            "(CELL (CELLTYPE \"DFF\") (INSTANCE u/r1) (TIMINGCHECK (SETUP D CK (1))))
             (CELL (CELLTYPE \"BUF\") (INSTANCE u/b3))",
            "design unknown-instance u/b3\n",
        ),
    ] {
        delays(&rt, cells, text)?;
    }
    Ok(())
}

#[test]
fn cut_delay_files_are_refused(rt: HostRuntime) -> Result<(), Fail> {
    let all = format!(in rt.alloc(); "{CELLS}{CORE}")?;
    let delays = CORE_DELAYS.as_bytes();
    for end in 0..delays.len() {
        let said = said(
            rt.alloc(),
            all.as_bytes(),
            &delays[..end],
            CORE_COMMANDS.as_bytes(),
        )?;
        assert_eq!(rt; said.status, Status::Refused, "at {end}");
    }
    let whole = said(rt.alloc(), all.as_bytes(), delays, CORE_COMMANDS.as_bytes())?;
    compare(&rt, &whole, Status::Done, "meets 950\n")
}

#[test]
fn cut_netlists_are_refused(rt: HostRuntime) -> Result<(), Fail> {
    let all = format!(in rt.alloc(); "{CELLS}{CORE}")?;
    let netlist = all.as_bytes();
    for end in 0..netlist.len().saturating_sub(1) {
        let said = said(
            rt.alloc(),
            &netlist[..end],
            CORE_DELAYS.as_bytes(),
            CORE_COMMANDS.as_bytes(),
        )?;
        assert!(rt;
            said.status == Status::Refused || said.status == Status::Design,
            "at {end}"
        );
    }
    Ok(())
}

#[test]
fn files_that_are_missing_or_too_long(rt: HostRuntime) -> Result<(), Fail> {
    let mut shelf = MemShelf::new(rt.alloc());
    shelf.add_long("v.v", LONGEST_FILE + 1)?;
    let long = ended(least(rt.alloc(), &mut shelf, "v.v", "d", "c"))?;
    compare(&rt, &long, Status::Limit, "limit v.v 268435457\n")?;
    let missing = ended(least(rt.alloc(), &mut shelf, "w.v", "d", "c"))?;
    compare(&rt, &missing, Status::Fault, "fault w.v\n")?;
    let empty = said(rt.alloc(), b"", b"(DELAYFILE (DIVIDER /))", b"")?;
    compare(&rt, &empty, Status::Design, "design no-top\n")?;
    let open = said(rt.alloc(), b"module t (); /* endmodule", b"", b"")?;
    compare(&rt, &open, Status::Refused, "refused v 13 syntax\n")?;
    let unsupported = said(rt.alloc(), b"module t (); always endmodule", b"", b"")?;
    compare(
        &rt,
        &unsupported,
        Status::Refused,
        "refused v 13 unsupported always\n",
    )
}
