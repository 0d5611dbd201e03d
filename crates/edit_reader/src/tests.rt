use crate::{ScriptLine, read_edits};
use bud_base::{Text, TextFault};
use bud_design::{Edit, PolicyLine};
use bud_syntax::SdcCommand;
use std::alloc::Global;
use std::process::Abort;

/// A line of a script in a form that can be compared.
#[derive(Clone, Copy, Debug, PartialEq, Eq)]
enum Seen {
    Plan,
    Delay(i64),
    Clock(i64),
    MaxDelay(i64),
    OtherCommand,
    Drop(u32),
    Arc(i64, u32),
    ArcOfClock(i64, u32),
    OtherLine,
}

fn clock_seen(clock: &Option<Text>, extra: i64, weight: u32) -> Seen {
    match clock {
        Some(_) => Seen::ArcOfClock(extra, weight),
        None => Seen::Arc(extra, weight),
    }
}

fn command_seen(command: &SdcCommand) -> Seen {
    match command {
        SdcCommand::Clock { period, .. } => Seen::Clock(*period),
        SdcCommand::MaxDelay { amount, .. } => Seen::MaxDelay(*amount),
        _ => Seen::OtherCommand,
    }
}

fn line_seen(line: &PolicyLine) -> Seen {
    match line {
        PolicyLine::Arc {
            extra,
            weight,
            clock,
            ..
        } => clock_seen(clock, *extra, *weight),
        _ => Seen::OtherLine,
    }
}

fn edit_seen(edit: &Edit) -> Seen {
    match edit {
        Edit::Delay { amount, .. } => Seen::Delay(*amount),
        Edit::Add(command) => command_seen(command),
        Edit::Drop(number) => Seen::Drop(*number),
        Edit::Line(line) => line_seen(line),
    }
}

fn numbered(line: &ScriptLine) -> (u32, Seen) {
    match line {
        ScriptLine::Change(number, edit) => (*number, edit_seen(edit)),
        ScriptLine::Plan(number) => (*number, Seen::Plan),
    }
}

/// The text reads as these lines.
fn reads(rt: &impl Abort, alloc: Global, text: &[u8], lines: &[(u32, Seen)]) {
    assert!(rt; text.len() < 1000);
    match read_edits(alloc, text) {
        Ok(script) => {
            assert_eq!(rt; script.len(), lines.len());
            for (line, wanted) in script.as_slice().iter().zip(lines) {
                assert_eq!(rt; numbered(line), *wanted);
            }
        }
        Err(fault) => assert_eq!(rt; Some(fault), None),
    }
}

/// The text is refused so.
fn refuses(rt: &impl Abort, alloc: Global, text: &[u8], wanted: TextFault) {
    assert!(rt; text.len() < 1000);
    match read_edits(alloc, text) {
        Ok(_) => assert!(rt; false),
        Err(fault) => assert_eq!(rt; fault, wanted),
    }
}

#[test]
fn edits_and_plans_in_any_order(rt: HostRuntime) {
    let text =
        b"edits 1\nplan\narc g/A g/Z extra 900 weight 2\nplan\ndelay u/b2/A u/b2/Z 1300\nplan\ndelay u/b2/A u/b2/Z 300\nplan\ndrop 1\nplan\n";
    let lines = [
        (2, Seen::Plan),
        (3, Seen::Arc(900, 2)),
        (4, Seen::Plan),
        (5, Seen::Delay(1300)),
        (6, Seen::Plan),
        (7, Seen::Delay(300)),
        (8, Seen::Plan),
        (9, Seen::Drop(1)),
        (10, Seen::Plan),
    ];
    reads(&rt, rt.alloc(), text, &lines);
}

#[test]
fn skipped_lines_are_counted(rt: HostRuntime) {
    let text = b"# edits\n\n edits\t2 \n\t\n# plan\ndrop 4294967295\n plan";
    reads(
        &rt,
        rt.alloc(),
        text,
        &[(6, Seen::Drop(4294967295)), (7, Seen::Plan)],
    );
    reads(&rt, rt.alloc(), b"edits 1\n", &[]);
}

#[test]
fn added_commands(rt: HostRuntime) {
    let text =
        b"edits 1\nadd create_clock -name V -period 2\n  add\tset_max_delay 1 -through [get_pins g/Z]\r\nadd set_false_path -comment \"a\tb \xc3\xa9\" -to x\n";
    let lines = [
        (2, Seen::Clock(2000)),
        (3, Seen::MaxDelay(1000)),
        (4, Seen::OtherCommand),
    ];
    reads(&rt, rt.alloc(), text, &lines);
}

#[test]
fn policy_lines_of_a_clock(rt: HostRuntime) {
    reads(
        &rt,
        rt.alloc(),
        b"edits 2\narc a b extra 1 weight 2 clock C\ninst u extra 0 weight 0\n",
        &[(2, Seen::ArcOfClock(1, 2)), (3, Seen::OtherLine)],
    );
}

#[test]
fn numbers_out_of_range(rt: HostRuntime) {
    for (text, at) in [
        (b"edits 1\ndelay a b 1000000001\n".as_slice(), 18),
        (b"edits 1\ndrop 0\ndelay a b -1\n".as_slice(), 13),
        (
            b"edits 1\nplan\nadd set_multicycle_path 2000\ndrop 0\n".as_slice(),
            37,
        ),
        (b"edits 1\ndefault extra 0 weight 1048577\n".as_slice(), 31),
    ] {
        refuses(&rt, rt.alloc(), text, TextFault::Value(at));
    }
}

#[test]
fn texts_of_another_form(rt: HostRuntime) {
    for text in [
        b"".as_slice(),
        b"edits 3\n".as_slice(),
        b"policy 1\n".as_slice(),
        b"edits 1\nblock u\n".as_slice(),
        b"edits 1\nplan 1\n".as_slice(),
        b"edits 1\ndelay a b 1.0\n".as_slice(),
        b"edits 1\ndrop\n".as_slice(),
        b"edits 1\nadd\n".as_slice(),
        b"edits 1\nadd set_multicycle_path -x 2000\n".as_slice(),
        b"edits 1\nadd set_load 1 x\n".as_slice(),
        b"edits 1\nadd {\n".as_slice(),
        b"edits 1\narc a b extra 1 weight 2 clock C\n".as_slice(),
    ] {
        assert!(&rt; text.len() < 1000);
        match read_edits(rt.alloc(), text) {
            Err(TextFault::Syntax(at)) => assert!(&rt; at <= text.len()),
            _ => assert!(&rt; false),
        }
    }
}
