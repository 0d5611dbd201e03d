use crate::{SdcFault, read_command, read_sdc};
use bud_syntax::{Edge, Object, SdcCommand, SdcFile};
use std::alloc::Global;
use std::process::Abort;

/// Why a text is refused, without the word.
#[derive(Clone, Copy, Debug, PartialEq, Eq)]
enum Cause {
    Syntax,
    Command,
    Option,
    Value,
    Memory,
}

/// The cause and the offset of a refusal.
fn cause_of(fault: &SdcFault) -> (Cause, usize) {
    match fault {
        SdcFault::Syntax(at) => (Cause::Syntax, *at),
        SdcFault::UnknownCommand(_, at) => (Cause::Command, *at),
        SdcFault::UnknownOption(_, at) => (Cause::Option, *at),
        SdcFault::Value(at) => (Cause::Value, *at),
        SdcFault::NoMemory => (Cause::Memory, 0),
    }
}

/// The word that a refusal carries.
fn word_of(fault: &SdcFault) -> &[u8] {
    match fault {
        SdcFault::UnknownCommand(name, _) | SdcFault::UnknownOption(name, _) => name.as_slice(),
        SdcFault::Syntax(_) | SdcFault::Value(_) | SdcFault::NoMemory => b"",
    }
}

/// The text is refused for this cause, with this word and offset.
fn refuses(rt: &impl Abort, alloc: Global, text: &[u8], cause: Cause, word: &[u8], at: usize) {
    assert!(rt; text.len() < 1000);
    match read_sdc(alloc, text) {
        Ok(_) => assert!(rt; false),
        Err(fault) => {
            assert_eq!(rt; cause_of(&fault), (cause, at));
            assert_eq!(rt; word_of(&fault), word);
        }
    }
}

/// The text is refused so where one command is wanted.
fn refuses_command(
    rt: &impl Abort,
    alloc: Global,
    text: &[u8],
    cause: Cause,
    word: &[u8],
    at: usize,
) {
    assert!(rt; text.len() < 1000);
    match read_command(alloc, text) {
        Ok(_) => assert!(rt; false),
        Err(fault) => {
            assert_eq!(rt; cause_of(&fault), (cause, at));
            assert_eq!(rt; word_of(&fault), word);
        }
    }
}

/// The number that says most of a command: a period, a delay or a count.
fn amount_of(command: &SdcCommand) -> i64 {
    match command {
        SdcCommand::Clock { period, .. } => *period,
        SdcCommand::InputDelay { amount, .. }
        | SdcCommand::OutputDelay { amount, .. }
        | SdcCommand::MaxDelay { amount, .. } => *amount,
        SdcCommand::Multicycle { count, .. } => i64::from(*count),
        SdcCommand::FalsePath { .. } => 0,
    }
}

fn setup_of(command: &SdcCommand) -> bool {
    match command {
        SdcCommand::InputDelay { setup, .. }
        | SdcCommand::OutputDelay { setup, .. }
        | SdcCommand::FalsePath { setup, .. }
        | SdcCommand::Multicycle { setup, .. } => *setup,
        SdcCommand::Clock { .. } | SdcCommand::MaxDelay { .. } => true,
    }
}

/// The text reads as commands with these amounts and fields `setup`.
fn reads(rt: &impl Abort, alloc: Global, text: &[u8], commands: &[(i64, bool)]) {
    assert!(rt; text.len() < 1000);
    match read_sdc(alloc, text) {
        Ok(file) => {
            assert_eq!(rt; file.commands.len(), commands.len());
            for (command, wanted) in file.commands.as_slice().iter().zip(commands.iter()) {
                assert_eq!(rt; (amount_of(command), setup_of(command)), *wanted);
            }
        }
        Err(_) => assert!(rt; false),
    }
}

const TOOL: &[u8] = b"# Created by write_sdc
set sdc_version 2.1
set_units -time ns -resistance kOhm -capacitance pF -voltage V -current mA
current_design top
create_clock [get_ports clk] -name C -period 2 -waveform {0 1}
set_false_path -hold \\
  -from [list [get_pins {u/r1/CK}]]
set_input_delay -clock C -max 0.4 [get_ports in]
set_input_delay -clock C -min 0.1 [get_ports in]
set_output_delay -clock C 0.5 [get_ports out]
";

const BLOCK: &[u8] = b"set_units -time ps
current_design {m1}
create_clock -name {C2} -period 15000 -waveform {0 7500} [get_ports {k}]
create_clock -name {bud_0} -period 10000 -waveform {0 5000}
create_clock -name {bud_1} -period 15000 -waveform {0 7500}
set_input_delay 1000 -clock {bud_0} -max -add_delay [get_ports {a}]
set_output_delay 5700 -clock {bud_0} -max -add_delay [get_ports {y}]
set_output_delay 11100 -clock {bud_1} -max -add_delay [get_ports {y}]
set_false_path -setup -from [get_clocks {bud_0}] -to [get_clocks {bud_1}]
set_false_path -setup -from [get_pins {r/CK}] -to [get_clocks {bud_0}]
";

const OTHER_BLOCK: &[u8] = b"set_units -time ps
current_design {m2}
create_clock -name {C1} -period 10000 -waveform {0 5000} [get_ports {k}]
create_clock -name {bud_0} -period 10000 -waveform {0 5000}
create_clock -name {bud_1} -period 15000 -waveform {0 7500}
set_input_delay 4300 -clock {bud_0} -max -add_delay [get_ports {a}]
set_input_delay 3900 -clock {bud_1} -max -add_delay [get_ports {a}]
set_output_delay 9500 -clock {bud_0} -max -add_delay [get_ports {y}]
set_false_path -setup -from [get_clocks {bud_1}] -to [get_clocks {bud_0}]
";

const CORE_BLOCK: &[u8] = b"set_units -time ps
current_design {core}
create_clock -name {C} -period 2000 -waveform {0 1000} [get_ports {ck}]
create_clock -name {bud_0} -period 2000 -waveform {0 1000}
set_input_delay 850 -clock {bud_0} -max -add_delay [get_ports {i}]
set_output_delay 500 -clock {bud_0} -max -add_delay [get_ports {o}]
";

#[test]
fn block_files(rt: HostRuntime) {
    let alloc = rt.alloc();
    let other = [
        (10000, true),
        (10000, true),
        (15000, true),
        (4300, true),
        (3900, true),
        (9500, true),
        (0, true),
    ];
    reads(&rt, alloc, OTHER_BLOCK, &other);
    let core = [(2000, true), (2000, true), (850, true), (500, true)];
    reads(&rt, alloc, CORE_BLOCK, &core);
}

/// The text isn't made of words.
fn is_torn(rt: &impl Abort, alloc: Global, text: &[u8]) {
    assert!(rt; text.len() < 1000);
    match read_sdc(alloc, text) {
        Err(SdcFault::Syntax(_)) => {}
        _ => assert!(rt; false),
    }
}

#[test]
fn torn_texts(rt: HostRuntime) {
    for text in [
        b"set_max_delay 1 -to $x".as_slice(),
        b"set_max_delay 1 -comment \"$x\" -to y".as_slice(),
        b"set_max_delay 1 -to {a".as_slice(),
        b"set_load 1 [get_ports $x]".as_slice(),
    ] {
        is_torn(&rt, rt.alloc(), text);
    }
}

#[test]
fn texts(rt: HostRuntime) {
    let alloc = rt.alloc();
    let tool = [
        (2000, true),
        (0, false),
        (400, true),
        (100, false),
        (500, true),
    ];
    reads(&rt, alloc, TOOL, &tool);
    let block = [
        (15000, true),
        (10000, true),
        (15000, true),
        (1000, true),
        (5700, true),
        (11100, true),
        (0, true),
        (0, true),
    ];
    reads(&rt, alloc, BLOCK, &block);
    reads(
        &rt,
        alloc,
        b"create_clock -name V -period 0.0015",
        &[(1, true)],
    );
    reads(
        &rt,
        alloc,
        b"set_input_delay 0.0015 -clock V x",
        &[(2, true)],
    );
    reads(&rt, alloc, b"set_max_delay 0.0015 -to y", &[(1, true)]);
    reads(
        &rt,
        alloc,
        b"set_multicycle_path 3 -hold -start -to {a b}",
        &[(3, false)],
    );
    reads(&rt, alloc, b"set_false_path -from -to", &[(0, true)]);
    reads(
        &rt,
        alloc,
        b"set_units -time ps;set_max_delay -1.5 -from [list [list] [list a]]",
        &[(-2, true)],
    );
    reads(&rt, alloc, b"", &[]);
}

#[test]
fn parts(rt: HostRuntime) {
    let alloc = rt.alloc();
    assert!(&rt; TOOL.len() < 1000);
    let Ok(SdcFile { design, commands }) = read_sdc(alloc, TOOL) else {
        assert!(&rt; false);
        return;
    };
    match design {
        Some(name) => assert_eq!(&rt; name.as_slice(), b"top".as_slice()),
        None => assert!(&rt; false),
    }
    match commands.as_slice().first() {
        Some(
            SdcCommand::Clock {
                name,
                rise,
                fall,
                sources,
                ..
            },
        ) => {
            assert_eq!(&rt; name.as_slice(), b"C".as_slice());
            assert_eq!(&rt; (*rise, *fall), (0, 1000));
            match sources.as_slice().first() {
                Some(Object::Ports(port)) => assert_eq!(&rt; port.as_slice(), b"clk".as_slice()),
                _ => assert!(&rt; false),
            }
        }
        _ => assert!(&rt; false),
    }
    match commands.as_slice().get(2) {
        Some(
            SdcCommand::InputDelay {
                clock,
                edge,
                add,
                ..
            },
        ) => {
            assert_eq!(&rt; clock.as_slice(), b"C".as_slice());
            assert_eq!(&rt; (*edge, *add), (Edge::Rise, false));
        }
        _ => assert!(&rt; false),
    }
}

#[test]
fn refusals(rt: HostRuntime) {
    let alloc = rt.alloc();
    for (text, cause, word, at) in [
        (
            b"set_load 0.01 x".as_slice(),
            Cause::Command,
            b"set_load".as_slice(),
            0,
        ),
        (
            b"create_clock -add -name V -period 1",
            Cause::Option,
            b"-add",
            13,
        ),
        (b"set_false_path", Cause::Syntax, b"", 0),
        (b"set_false_path; set_load", Cause::Syntax, b"", 0),
        (b"set x 1", Cause::Command, b"set", 0),
        (b"create_clock a* -period x", Cause::Value, b"", 13),
        (b"create_clock a* -period x -name N", Cause::Syntax, b"", 24),
        (
            b"create_clock [get_ports a*] -period 1",
            Cause::Value,
            b"",
            24,
        ),
        (
            b"create_clock [all_inputs] -period 1",
            Cause::Syntax,
            b"",
            0,
        ),
        (b"create_clock -period -name C", Cause::Syntax, b"", 21),
        (
            b"create_clock -name C -period 1 -name D",
            Cause::Syntax,
            b"",
            31,
        ),
        (
            b"create_clock -name C -period 1000001",
            Cause::Value,
            b"",
            29,
        ),
        (
            b"create_clock -name C -period 99999999x",
            Cause::Syntax,
            b"",
            29,
        ),
        (
            b"create_clock -name C -period [expr 1]",
            Cause::Command,
            b"expr",
            30,
        ),
        (b"create_clock -name C -period []", Cause::Syntax, b"", 29),
        (
            b"create_clock -name C -period 1 -waveform {0}",
            Cause::Syntax,
            b"",
            41,
        ),
        (
            b"create_clock -name C -period 1 -waveform {1000001 1 2}",
            Cause::Value,
            b"",
            41,
        ),
        (
            b"set_input_delay 1 -clock [get_ports a] x",
            Cause::Syntax,
            b"",
            26,
        ),
        (
            b"set_input_delay 1 -clock [get_clocks {a b}] x",
            Cause::Syntax,
            b"",
            37,
        ),
        (
            b"set_input_delay 1 -clock [get_clocks a b] x",
            Cause::Syntax,
            b"",
            39,
        ),
        (
            b"set_input_delay 1 -clock [get_clocks] x",
            Cause::Syntax,
            b"",
            26,
        ),
        (b"set_input_delay 1 -clock {} x", Cause::Syntax, b"", 25),
        (b"set_input_delay 1 -clock C x y", Cause::Syntax, b"", 29),
        (b"set_max_delay 1 -to [list a -b]", Cause::Option, b"-b", 28),
        (
            b"set_max_delay 1 -to [list [list [foo]]]",
            Cause::Command,
            b"foo",
            33,
        ),
        (
            b"set_max_delay 1 -to [get_pins [list a]]",
            Cause::Syntax,
            b"",
            30,
        ),
        (
            b"set_multicycle_path 2 -start -end -to a",
            Cause::Syntax,
            b"",
            29,
        ),
        (b"set_multicycle_path 2.0 -to a", Cause::Syntax, b"", 20),
        (b"set_multicycle_path 0 -to a", Cause::Value, b"", 20),
        (b"set_units -time us", Cause::Syntax, b"", 16),
        (b"set_max_delay 1 -to", Cause::Syntax, b"", 0),
    ] {
        refuses(&rt, alloc, text, cause, word, at);
    }
}

#[test]
fn single_commands(rt: HostRuntime) {
    let alloc = rt.alloc();
    match read_command(alloc, b"set_max_delay 0.0015 -to y ; # one") {
        Ok(command) => assert_eq!(rt; amount_of(&command), 1),
        Err(_) => assert!(rt; false),
    }
    for (text, cause, word, at) in [
        (
            b"set_units -time ps".as_slice(),
            Cause::Command,
            b"set_units".as_slice(),
            0,
        ),
        (b"set_max_delay 1 -to y; set_load", Cause::Syntax, b"", 23),
        (b"set_max_delay 1000001 -to y", Cause::Value, b"", 14),
    ] {
        refuses_command(&rt, alloc, text, cause, word, at);
    }
}

fn group_count(command: &SdcCommand) -> usize {
    match command {
        SdcCommand::MaxDelay { through, .. } => through.len(),
        _ => 0,
    }
}

/// How many objects the group of this place names; 0 where there is none.
fn group_size(command: &SdcCommand, place: usize) -> usize {
    match command {
        SdcCommand::MaxDelay { through, .. } => match through.as_slice().get(place) {
            Some(group) => group.len(),
            None => 0,
        },
        _ => 0,
    }
}

/// What the groups of `-through` name, in their order.
#[test]
fn through_groups(rt: HostRuntime) {
    let alloc = rt.alloc();
    let text = b"set_max_delay 1 -through [get_pins g/Z] -through {a b}".as_slice();
    match read_command(alloc, text) {
        Ok(command) => {
            assert_eq!(rt; group_count(&command), 2);
            assert_eq!(rt; group_size(&command, 0), 1);
            assert_eq!(rt; group_size(&command, 1), 2);
        }
        Err(_) => assert!(rt; false),
    }
    refuses(
        &rt,
        alloc,
        b"set_false_path -through {}",
        Cause::Syntax,
        b"",
        24,
    );
}
