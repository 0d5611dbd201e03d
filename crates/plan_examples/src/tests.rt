//! `plan` and `check` on small designs, with what they print and write.
use bud_shelf::SafeShelf;
use budget_plans::{check, plan};
use budget_report::Status;
use budget_steps::{Answer, Said, Stop, Write};
use std::alloc::{AllocError, Global};
use std::process::Abort;
use std::test::Fail;

/// A block with a register between two buffers, behind a buffer of the top.
const CORE: &str = "`celldefine
module DFF (CK, D, Q); input CK, D; output Q; endmodule
module BUF (A, Z); input A; output Z; endmodule
`endcelldefine
module core (ck, i, o);
  input ck, i; output o; wire q;
  BUF b1 (.A(i), .Z(d));
  DFF r1 (.CK(ck), .D(d), .Q(q));
  BUF b2 (.A(q), .Z(o));
endmodule
module top (clk, in, out);
  input clk, in; output out; wire m;
  BUF g (.A(in), .Z(m));
  core u (.ck(clk), .i(m), .o(out));
endmodule
";

const CORE_DELAYS: &str = "(DELAYFILE (SDFVERSION \"3.0\") (DIVIDER /) (TIMESCALE 1ns)
(CELL (CELLTYPE \"BUF\") (INSTANCE g) (DELAY (ABSOLUTE (IOPATH A Z (0.10) (0.12)))))
(CELL (CELLTYPE \"BUF\") (INSTANCE u/b1) (DELAY (ABSOLUTE (IOPATH A Z (0.20) (0.15)))))
(CELL (CELLTYPE \"BUF\") (INSTANCE u/b2) (DELAY (ABSOLUTE (IOPATH A Z (0.30)))))
(CELL (CELLTYPE \"DFF\") (INSTANCE u/r1) (DELAY (ABSOLUTE (IOPATH (posedge CK) Q (0.25))))
 (TIMINGCHECK (SETUP D (posedge CK) (0.05)) (HOLD D (posedge CK) (0.01)))))
";

const CORE_COMMANDS: &str = "create_clock -name C -period 2 [get_ports clk]
set_input_delay 0.4 -clock C [get_ports in]
set_output_delay 0.5 -clock C [get_ports out]
";

const CORE_POLICY: &str = "policy 1
block u
arc g/A g/Z extra 900 weight 1
arc u/b1/A u/b1/Z extra 900 weight 2
arc u/b2/A u/b2/Z extra 5000 weight 1
";

const CORE_CERT: &str = "certificate 1
class 0 C rise
node in 0 400
node out 0 1500
node g/A 0 400
node g/Z 0 850
node u/i 0 850
node u/o 0 1500
node u/b1/A 0 850
node u/b1/Z 0 1950
node u/r1/CK 0 0
node u/r1/D 0 1950
node u/r1/Q 0 250
node u/b2/A 0 250
node u/b2/Z 0 1500
item in g/A 0 0 1
item g/A g/Z 0 450 1
item g/Z u/i 0 0 1
item u/i u/b1/A 0 0 1
item u/o out 0 0 1
item u/b1/A u/b1/Z 0 1100 1
item u/b1/Z u/r1/D 0 0 1
item u/r1/CK u/r1/Q 0 250 1
item u/r1/Q u/b2/A 0 0 1
item u/b2/A u/b2/Z 0 1250 1
item u/b2/Z u/o 0 0 1
start in 0 1
start u/r1/CK 0 1
end out 0 1
end u/r1/D 0 1
weight 3900
";

const CORE_SUMMARY: &str = "meets 950
classes 1
nodes 13
items 11
weight 3900
block u 3450
rest 450
unclocked 0
left-out 0
";

/// The texts of a design and its policy.
#[derive(Clone, Copy)]
struct Texts<'a> {
    netlist: &'a str,
    delays: &'a str,
    constraints: &'a str,
    policy: &'a str,
}

/// A shelf with these texts.
fn shelf_of(alloc: Global, texts: Texts<'_>) -> Result<SafeShelf, AllocError> {
    let mut shelf = SafeShelf::new(alloc);
    shelf.add("v", texts.netlist.as_bytes())?;
    shelf.add("d", texts.delays.as_bytes())?;
    shelf.add("c", texts.constraints.as_bytes())?;
    shelf.add("p", texts.policy.as_bytes())?;
    Ok(shelf)
}

/// What `plan` says, and the text that it writes to `k`; an empty one where it writes no file.
#[derive(Drop)]
struct Planned {
    said: Said,
    cert: String,
}

fn run_plan(alloc: Global, texts: Texts<'_>) -> Result<Planned, Fail> {
    let mut shelf = shelf_of(alloc, texts)?;
    match plan(alloc, &mut shelf, "v", "d", "c", "p", "k") {
        Ok(answer) => answered(alloc, answer),
        Err(stop) => stopped(alloc, stop),
    }
}

fn answered(alloc: Global, answer: Answer) -> Result<Planned, Fail> {
    let cert = written(alloc, answer.writes.as_slice())?;
    Ok(Planned {
        said: answer.said,
        cert,
    })
}

fn stopped(alloc: Global, stop: Stop) -> Result<Planned, Fail> {
    Ok(Planned {
        said: refused(stop)?,
        cert: String::new(alloc),
    })
}

fn written(alloc: Global, writes: &[Write]) -> Result<String, Fail> {
    match writes {
        [write] if write.name.as_str() == "k" => {
            let text = str::from_utf8(write.bytes.as_slice())?;
            Ok(String::from_str(alloc, text)?)
        }
        _ => Ok(String::new(alloc)),
    }
}

fn refused(stop: Stop) -> Result<Said, AllocError> {
    match stop {
        Stop::Refused(said) => Ok(said),
        Stop::NoMemory => Err(AllocError),
    }
}

/// What `check` says of a certificate.
fn checked(alloc: Global, texts: Texts<'_>, cert: &str) -> Result<Said, Fail> {
    let mut shelf = shelf_of(alloc, texts)?;
    shelf.add("k", cert.as_bytes())?;
    match check(alloc, &mut shelf, "v", "d", "c", "p", "k") {
        Ok(answer) => Ok(answer.said),
        Err(stop) => Ok(refused(stop)?),
    }
}

fn compare(
    rt: &(impl Abort + AllocGlobal),
    said: &Said,
    status: Status,
    text: &str,
) -> Result<(), Fail> {
    assert_eq!(rt; str::from_utf8(said.text.as_slice())?, text);
    assert_eq!(rt; said.status, status);
    Ok(())
}

/// Compares what `plan` says, and gives the text that it writes.
fn plan_says(
    rt: &(impl Abort + AllocGlobal),
    design: Texts<'_>,
    status: Status,
    text: &str,
) -> Result<String, Fail> {
    let planned = run_plan(rt.alloc(), design)?;
    compare(rt, &planned.said, status, text)?;
    Ok(planned.cert)
}

/// Compares what `plan` says of a design for which it writes nothing.
fn plan_refuses(
    rt: &(impl Abort + AllocGlobal),
    design: Texts<'_>,
    status: Status,
    text: &str,
) -> Result<(), Fail> {
    let cert = plan_says(rt, design, status, text)?;
    assert_eq!(rt; cert.as_str(), "");
    Ok(())
}

/// Compares what `check` says of a certificate.
fn check_says(
    rt: &(impl Abort + AllocGlobal),
    design: Texts<'_>,
    cert: &str,
    status: Status,
    text: &str,
) -> Result<(), Fail> {
    let said = checked(rt.alloc(), design, cert)?;
    compare(rt, &said, status, text)
}

/// Each of these texts stands in the certificate.
fn has_lines(rt: &impl Abort, cert: &str, lines: &[&str]) {
    for line in lines {
        assert!(rt; cert.contains(*line));
    }
}

/// The block's design under these commands and this policy.
fn core<'a>(constraints: &'a str, policy: &'a str) -> Texts<'a> {
    Texts {
        netlist: CORE,
        delays: CORE_DELAYS,
        constraints,
        policy,
    }
}

#[test]
fn a_design_has_best_budgets_and_a_certificate(rt: HostRuntime) -> Result<(), Fail> {
    let design = core(CORE_COMMANDS, CORE_POLICY);
    let cert = plan_says(&rt, design, Status::Done, CORE_SUMMARY)?;
    assert_eq!(rt; cert.as_str(), CORE_CERT);
    check_says(&rt, design, CORE_CERT, Status::Done, "holds 3900\n")
}

const EMPTY_SUMMARY: &str = "no paths
classes 0
nodes 0
items 0
weight 0
block u 0
rest 0
unclocked 0
left-out 0
";

#[test]
fn a_design_without_paths_has_an_empty_certificate(rt: HostRuntime) -> Result<(), Fail> {
    let clock = "create_clock -name C -period 2 [get_ports clk]";
    let design = core(clock, CORE_POLICY);
    let cert = plan_says(&rt, design, Status::Done, EMPTY_SUMMARY)?;
    let empty = "certificate 1\nweight 0\n";
    assert_eq!(rt; cert.as_str(), empty);
    check_says(&rt, design, empty, Status::Done, "holds 0\n")
}

/// Compares what `check` says of the design's certificate with another text in a line's place.
fn fault_is(
    rt: &(impl Abort + AllocGlobal),
    line: &str,
    other: &str,
    text: &str,
) -> Result<(), Fail> {
    let cert = CORE_CERT.replace(rt.alloc(), line, other)?;
    let design = core(CORE_COMMANDS, CORE_POLICY);
    check_says(rt, design, cert.as_str(), Status::Certificate, text)
}

#[test]
fn the_first_fault_of_a_certificate_is_named(rt: HostRuntime) -> Result<(), Fail> {
    for (line, other, text) in [
        (
            "item u/b1/A u/b1/Z 0 1100 1",
            "item u/b1/A u/b1/Z 0 1100 2",
            "certificate balance u/b1/A 0\n",
        ),
        (
            "item u/b1/A u/b1/Z 0 1100 1",
            "item u/b1/A u/b1/Z 0 1101 1",
            "certificate bounds u/b1/A u/b1/Z 0\n",
        ),
        (
            "node g/Z 0 850",
            "node g/Z 0 849",
            "certificate arrival g/A g/Z 0\n",
        ),
        (
            "start in 0 1\nstart u/r1/CK 0 1\nend out 0 1\n",
            "start in 0 1\nstart u/r1/CK 0 1\n",
            "certificate shape\n",
        ),
        ("class 0 C rise", "class 0 C fall", "certificate shape\n"),
        (
            "certificate 1",
            "certificate 2\npolicy 2",
            "certificate version 1 2\n",
        ),
        ("weight 3900", "weight 39", "certificate weight 3900 39\n"),
    ] {
        fault_is(&rt, line, other, text)?;
    }
    Ok(())
}

#[test]
fn budgets_above_the_bounds_of_a_policy_are_refused(rt: HostRuntime) -> Result<(), Fail> {
    let policy = CORE_POLICY.replace(rt.alloc(), "arc g/A g/Z extra 900 weight 1\n", "")?;
    let design = core(CORE_COMMANDS, policy.as_str());
    let text = "certificate bounds g/A g/Z 0\n";
    check_says(&rt, design, CORE_CERT, Status::Certificate, text)
}

/// Least delays as budgets, with the arrivals of the best ones and no flow.
const LEAST_CERT: &str = "certificate 1
class 0 C rise
node in 0 400
node out 0 1500
node g/A 0 400
node g/Z 0 850
node u/i 0 850
node u/o 0 1500
node u/b1/A 0 850
node u/b1/Z 0 1950
node u/r1/CK 0 0
node u/r1/D 0 1950
node u/r1/Q 0 250
node u/b2/A 0 250
node u/b2/Z 0 1500
item in g/A 0 0 0
item g/A g/Z 0 120 0
item g/Z u/i 0 0 0
item u/i u/b1/A 0 0 0
item u/o out 0 0 0
item u/b1/A u/b1/Z 0 200 0
item u/b1/Z u/r1/D 0 0 0
item u/r1/CK u/r1/Q 0 250 0
item u/r1/Q u/b2/A 0 0 0
item u/b2/A u/b2/Z 0 300 0
item u/b2/Z u/o 0 0 0
start in 0 0
start u/r1/CK 0 0
end out 0 0
end u/r1/D 0 0
weight 820
";

#[test]
fn budgets_without_a_flow_are_not_best(rt: HostRuntime) -> Result<(), Fail> {
    let design = core(CORE_COMMANDS, CORE_POLICY);
    let text = "certificate weight 820 8520\n";
    check_says(&rt, design, LEAST_CERT, Status::Certificate, text)
}

/// Compares what `plan` says under the policy with another text in a line's place.
fn policy_is_refused(
    rt: &(impl Abort + AllocGlobal),
    line: &str,
    other: &str,
    text: &str,
) -> Result<(), Fail> {
    let policy = CORE_POLICY.replace(rt.alloc(), line, other)?;
    let design = core(CORE_COMMANDS, policy.as_str());
    plan_refuses(rt, design, Status::Design, text)
}

#[test]
fn lines_of_policies_are_refused(rt: HostRuntime) -> Result<(), Fail> {
    for (line, other, text) in [
        (
            "block u\n",
            "block u\nblock u\n",
            "design nested-blocks u u\n",
        ),
        ("block u\n", "block w\n", "design unknown-instance w\n"),
        ("arc g/A g/Z", "arc g/A u/o", "design unknown-arc g/A u/o\n"),
    ] {
        policy_is_refused(&rt, line, other, text)?;
    }
    Ok(())
}

const THROUGH_SUMMARY: &str = "meets 230
classes 2
nodes 13
items 11
weight 2230
block u 2110
rest 120
unclocked 0
left-out 0
";

#[test]
fn classes_go_on_at_groups(rt: HostRuntime) -> Result<(), Fail> {
    let commands = format!(in rt.alloc();
        "{CORE_COMMANDS}set_max_delay 1 -through [get_pins g/Z]\n"
    )?;
    let design = core(commands.as_str(), CORE_POLICY);
    let cert = plan_says(&rt, design, Status::Done, THROUGH_SUMMARY)?;
    let lines = [
        "certificate 1\nclass 0 C rise 4:0\nclass 1 C rise 4:1\nnode in 0 400\n",
        "\nitem g/A g/Z 0 120 ",
        "\nitem u/b1/A u/b1/Z 1 430 ",
        "\nweight 2230\n",
    ];
    has_lines(&rt, cert.as_str(), &lines);
    Ok(())
}

const LATE: &str = "violated -50
class 0 C rise
start u/r1/CK 0 0
arc u/r1/CK u/r1/Q 250
arc u/r1/Q u/b2/A 0
arc u/b2/A u/b2/Z 1300
arc u/b2/Z u/o 0
arc u/o out 0
end out 0 1500
";

#[test]
fn no_certificate_is_written_where_a_path_is_violated(rt: HostRuntime) -> Result<(), Fail> {
    let slow = CORE_DELAYS.replace(rt.alloc(), "(0.30)", "(1.30)")?;
    let design = Texts {
        netlist: CORE,
        delays: slow.as_str(),
        constraints: CORE_COMMANDS,
        policy: CORE_POLICY,
    };
    plan_refuses(&rt, design, Status::Violated, LATE)?;
    let text = "certificate bounds u/b2/A u/b2/Z 0\n";
    check_says(&rt, design, CORE_CERT, Status::Certificate, text)
}

/// Two blocks, each with a register, under two clocks.
const PAIR: &str = "`celldefine
module DFF (CK, D, Q); input CK, D; output Q; endmodule
module AND2 (A, B, Z); input A, B; output Z; endmodule
`endcelldefine
module m1 (k, a, y); input k, a; output y;
  DFF r (.CK(k), .D(a), .Q(q)); AND2 g (.A(a), .B(q), .Z(y));
endmodule
module m2 (k, a, y); input k, a; output y;
  DFF s (.CK(k), .D(a), .Q(y));
endmodule
module top (p1, p2, in, out); input p1, p2, in; output out;
  m1 x1 (.k(p2), .a(in), .y(w)); m2 x2 (.k(p1), .a(w), .y(out));
endmodule
";

const PAIR_COMMANDS: &str = "create_clock -name C1 -period 10 [get_ports p1]
create_clock -name C2 -period 15 [get_ports p2]
set_input_delay 1 -clock C1 [get_ports in]
set_output_delay 2 -clock C1 [get_ports out]
";

const PAIR_DELAYS: &str = "(DELAYFILE (DIVIDER /) (TIMESCALE 1ps)
(CELL (CELLTYPE \"DFF\") (INSTANCE x1/r) (DELAY (ABSOLUTE (IOPATH (posedge CK) Q (500)))) (TIMINGCHECK (SETUP D (posedge CK) (100))))
(CELL (CELLTYPE \"DFF\") (INSTANCE x2/s) (DELAY (ABSOLUTE (IOPATH (posedge CK) Q (500)))) (TIMINGCHECK (SETUP D (posedge CK) (100))))
(CELL (CELLTYPE \"AND2\") (INSTANCE x1/g) (DELAY (ABSOLUTE (IOPATH A Z (300)) (IOPATH B Z (400)))))
)
";

/// Lines of a policy of the pair.
const PAIR_LINES: &str = "block x1
block x2
arc x1/g/A x1/g/Z extra 3000 weight 3
arc x1/g/B x1/g/Z extra 3000 weight 3
arc x2/a x2/s/D extra 9000 weight 1
arc x2/y out extra 9000 weight 1
";

fn pair(policy: &str) -> Texts<'_> {
    Texts {
        netlist: PAIR,
        delays: PAIR_DELAYS,
        constraints: PAIR_COMMANDS,
        policy,
    }
}

/// A line of a policy that counts for one clock, whose name follows.
const CLOCK_LINE: &str = "arc x2/a x2/s/D extra 9000 weight 5 clock";

const PAIR_SUMMARY: &str = "meets 3900
classes 2
nodes 19
items 16
weight 34200
block x1 20100
block x2 6600
rest 7500
unclocked 0
left-out 0
";

const CLOCKED_SUMMARY: &str = "meets 3900
classes 2
nodes 19
items 16
weight 44200
block x1 11100
block x2 25600
rest 7500
unclocked 0
left-out 0
";

#[test]
fn paths_of_two_clocks_share_their_slack(rt: HostRuntime) -> Result<(), Fail> {
    let policy = format!(in rt.alloc(); "policy 1\n{PAIR_LINES}")?;
    plan_says(&rt, pair(policy.as_str()), Status::Done, PAIR_SUMMARY)?;
    Ok(())
}

#[test]
fn lines_of_policies_count_for_one_clock(rt: HostRuntime) -> Result<(), Fail> {
    let policy = format!(in rt.alloc(); "policy 2\n{PAIR_LINES}{CLOCK_LINE} C2\n")?;
    let cert = plan_says(&rt, pair(policy.as_str()), Status::Done, CLOCKED_SUMMARY)?;
    let lines = [
        "certificate 2\npolicy 2\nclass 0 C1 rise\nclass 1 C2 rise\n",
        "\nitem x1/g/B x1/g/Z 1 400 ",
        "\nitem x2/a x2/s/D 1 4000 ",
        "\nweight 44200\n",
    ];
    has_lines(&rt, cert.as_str(), &lines);
    of_another_version(&rt, cert.as_str())
}

/// The pair's certificate is of another version than this policy.
fn of_another_version(rt: &(impl Abort + AllocGlobal), cert: &str) -> Result<(), Fail> {
    let policy = format!(in rt.alloc(); "policy 1\n{PAIR_LINES}")?;
    let text = "certificate version 1 2\n";
    check_says(rt, pair(policy.as_str()), cert, Status::Certificate, text)
}

#[test]
fn a_clock_of_a_policy_is_one_of_the_design(rt: HostRuntime) -> Result<(), Fail> {
    let policy = format!(in rt.alloc(); "policy 2\n{PAIR_LINES}{CLOCK_LINE} C9\n")?;
    let text = "design unknown-clock C9\n";
    plan_refuses(&rt, pair(policy.as_str()), Status::Design, text)
}

#[test]
fn a_policy_of_the_first_version_names_no_clock(rt: HostRuntime) -> Result<(), Fail> {
    let policy = format!(in rt.alloc(); "policy 1\n{PAIR_LINES}{CLOCK_LINE} C2\n")?;
    let early = run_plan(rt.alloc(), pair(policy.as_str()))?;
    assert_eq!(rt; early.said.status, Status::Refused);
    Ok(())
}
