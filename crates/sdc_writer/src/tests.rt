use crate::print_sdc;
use bud_base::{Listed, Text};
use bud_syntax::{Edge, Object, Objects, SdcCommand, SdcCommands, SdcFile};
use sdc_reader::read_sdc;
use std::alloc::{AllocError, Global};
use std::process::Abort;
use std::test::Fail;

const CORE_BLOCK: &[u8] = b"set_units -time ps
current_design {core}
create_clock -name {C} -period 2000 -waveform {0 1000} [get_ports {ck}]
create_clock -name {bud_0} -period 2000 -waveform {0 1000}
set_input_delay 850 -clock {bud_0} -max -add_delay [get_ports {i}]
set_output_delay 500 -clock {bud_0} -max -add_delay [get_ports {o}]
";

const BLOCK: &[u8] = b"set_units -time ps
current_design {m1}
create_clock -name {C2} -period 15000 -waveform {0 7500} [get_ports {k}]
create_clock -name {bud_0} -period 10000 -waveform {0 5000}
create_clock -name {bud_1} -period 15000 -waveform {0 7500}
set_input_delay 1000 -clock {bud_0} -max -add_delay [get_ports {a}]
set_output_delay 5700 -clock {bud_0} -max -add_delay [get_ports {y}]
set_output_delay 11100 -clock {bud_1} -max -add_delay [get_ports {y}]
set_false_path -setup -from [get_clocks {bud_0}] -to [get_clocks {bud_1}]
set_false_path -setup -from [get_pins {r/CK}] -to [get_clocks {bud_0}]
";

const OTHER_BLOCK: &[u8] = b"set_units -time ps
current_design {m2}
create_clock -name {C1} -period 10000 -waveform {0 5000} [get_ports {k}]
create_clock -name {bud_0} -period 10000 -waveform {0 5000}
create_clock -name {bud_1} -period 15000 -waveform {0 7500}
set_input_delay 4300 -clock {bud_0} -max -add_delay [get_ports {a}]
set_input_delay 3900 -clock {bud_1} -max -add_delay [get_ports {a}]
set_output_delay 9500 -clock {bud_0} -max -add_delay [get_ports {y}]
set_false_path -setup -from [get_clocks {bud_1}] -to [get_clocks {bud_0}]
";

/// Objects of several kinds, a name with braces, falling edges and a negative one.
const MIXED: &[u8] = b"set_units -time ps
current_design {a\\{b}
create_clock -name {C} -period 2000 -waveform {-500 500} [list [get_ports {ck d[0]}] [get_pins {u/g/Z}]]
set_output_delay -20 -clock {C} -clock_fall -max [get_ports {o p}]
set_multicycle_path 2 -setup -start -from [list [get_pins {r/CK s/CK}] [get_clocks {C}]] -to [get_clocks {C}]
set_multicycle_path 1000 -setup -to [list [get_ports {o}] [get_pins {r/D}] [get_clocks {C}]]
set_max_delay 1000000000 -from [get_clocks {C}]
";

fn text(alloc: Global, bytes: &[u8]) -> Result<Text, AllocError> {
    Text::from_slice(alloc, bytes)
}

fn port(alloc: Global, name: &[u8]) -> Result<Objects, AllocError> {
    Ok(Listed::from_vec(vec![in alloc; Object::Ports(text(alloc, name)?)]?))
}

/// A clock of 2 ns that rises first.
fn clock(alloc: Global, name: &[u8], sources: Objects) -> Result<SdcCommand, AllocError> {
    Ok(SdcCommand::Clock {
        name: text(alloc, name)?,
        period: 2000,
        rise: 0,
        fall: 1000,
        sources,
    })
}

/// The delay of 850 ps at the input port.
fn arrival(alloc: Global) -> Result<SdcCommand, AllocError> {
    Ok(SdcCommand::InputDelay {
        amount: 850,
        clock: text(alloc, b"bud_0")?,
        edge: Edge::Rise,
        setup: true,
        add: true,
        ports: port(alloc, b"i")?,
    })
}

/// The delay of 500 ps at the output port.
fn departure(alloc: Global) -> Result<SdcCommand, AllocError> {
    Ok(SdcCommand::OutputDelay {
        amount: 500,
        clock: text(alloc, b"bud_0")?,
        edge: Edge::Rise,
        setup: true,
        add: true,
        ports: port(alloc, b"o")?,
    })
}

fn commands(alloc: Global) -> Result<SdcCommands, AllocError> {
    let mut commands = Listed::new(alloc);
    commands.push(clock(alloc, b"C", port(alloc, b"ck")?)?)?;
    commands.push(clock(alloc, b"bud_0", Listed::new(alloc))?)?;
    commands.push(arrival(alloc)?)?;
    commands.push(departure(alloc)?)?;
    Ok(commands)
}

/// The constraints of a registered block behind a buffer.
fn core_block(alloc: Global) -> Result<SdcFile, AllocError> {
    Ok(SdcFile {
        design: Some(text(alloc, b"core")?),
        commands: commands(alloc)?,
    })
}

#[test]
fn prints_the_constraints_of_a_block(rt: HostRuntime) -> Result<(), Fail> {
    let file = core_block(rt.alloc())?;
    let printed = print_sdc(rt.alloc(), &file)?;
    assert_eq!(rt; printed.as_slice(), CORE_BLOCK);
    Ok(())
}

/// The text reads, and is printed again as it stands.
fn prints_itself(rt: &impl Abort, alloc: Global, text: &[u8]) {
    assert!(rt; text.len() < 1000);
    let Ok(file) = read_sdc(alloc, text) else {
        assert!(rt; false);
        return;
    };
    match print_sdc(alloc, &file) {
        Ok(printed) => assert_eq!(rt; printed.as_slice(), text),
        Err(_) => assert!(rt; false),
    }
}

#[test]
fn block_files_print_as_themselves(rt: HostRuntime) {
    prints_itself(&rt, rt.alloc(), BLOCK);
    prints_itself(&rt, rt.alloc(), OTHER_BLOCK);
}

#[test]
fn mixed_objects_print_as_themselves(rt: HostRuntime) {
    prints_itself(&rt, rt.alloc(), MIXED);
}
