ghost use Rattle.std.specs.Prelude.{◌≡◌, ◌++◌, ◌∷◌, [], true, OnOk, IfOk, map, codes, decimal};
ghost use Rattle.std.specs.Fmt.{signed_decimal};
ghost use Rattle.std.specs.List.{flat_map};
ghost use Rattle.line_text.specs.Written.{spaced};
ghost use Rattle.sdc_reader.specs.Files.{Reads};
ghost use Rattle.sdc_writer.specs.Printable.{is_printable_file};
ghost use Rattle.sdc_writer.specs.Texts.{braced, line, command_words, design_words, unit_words, title_of, fields_of, clock_words, edge_words, delay_words, delay_start, delay_end, edge_option, option_if, between, part_words, cycle_words, file_text};

use crate::objects::put_objects;
use bud_base::Text;
use bud_syntax::{Edge, Object, Objects, SdcCommand, SdcFile};
use itoa::Buffer;
use line_text::{put_count, put_field, put_whole};
use std::alloc::{AllocError, Global};

/// The times of a clock in ps.
#[derive(Clone, Copy)]
struct ClockTimes {
    period: i64,
    rise: i64,
    fall: i64,
}

/// Writes constraints as a text, in time linear in the text.
///
/// Times are in whole ps. What speaks of hold checks alone is written as of setup checks; through groups, and objects that
/// aren't ports, pins or clocks found by their names, are left out: such a file isn't printable.
pub fn print_sdc(alloc: Global, file: &SdcFile) -> Result<Text, AllocError>
    ensures text { IfOk result (λ text. text ≡ file_text file.now) }
    // The text reads as the file.
    ensures reads { is_printable_file file.now ≡ true → IfOk result (λ text. Reads text file.now) }
{
    write_lines(alloc, file)
}

fn write_lines(alloc: Global, file: &SdcFile) -> Result<Text, AllocError>
    ensures { IfOk result (λ text. text ≡ file_text file.now) }
{
    let mut out = Vec::new(alloc);
    out.extend_from_slice(b"set_units -time ps\n")?;
    put_design(&mut out, &file.design)?;
    put_commands(&mut out, file.commands.as_slice())?;
    Ok(Text::from_vec(out))
}

fn put_design(out: &mut Vec<u8>, design: &Option<Text>) -> Result<(), AllocError>
    ensures { OnOk result (out.new.items ≡ out.old.items ++ flat_map line (design_words design.now)) }
{
    match design {
        Some(name) => put_design_line(out, name.as_slice()),
        None => Ok(()),
    }
}

fn put_design_line(out: &mut Vec<u8>, name: &[u8]) -> Result<(), AllocError>
    ensures { OnOk result (out.new.items ≡ out.old.items ++ line (codes "current_design" ∷ braced name.now ∷ [])) }
{
    out.extend_from_slice(b"current_design")?;
    put_braced(out, name)?;
    out.push(b'\n')?;
    Ok(())
}

fn put_commands(out: &mut Vec<u8>, commands: &[SdcCommand]) -> Result<(), AllocError>
    ensures { OnOk result (out.new.items ≡ out.old.items ++ flat_map line (map command_words commands.now)) }
{
    for command in commands {
        put_command(out, command)?;
    }
    Ok(())
}

fn put_command(out: &mut Vec<u8>, command: &SdcCommand) -> Result<(), AllocError>
    ensures { OnOk result (out.new.items ≡ out.old.items ++ line (command_words command.now)) }
{
    out.extend_from_slice(title(command))?;
    put_fields(out, command)?;
    out.push(b'\n')?;
    Ok(())
}

fn title(command: &SdcCommand) -> &'static [u8]
    ensures { result.now ≡ title_of command.now }
{
    match command {
        SdcCommand::Clock { .. } => b"create_clock",
        SdcCommand::InputDelay { .. } => b"set_input_delay",
        SdcCommand::OutputDelay { .. } => b"set_output_delay",
        SdcCommand::FalsePath { .. } => b"set_false_path",
        SdcCommand::Multicycle { .. } => b"set_multicycle_path",
        SdcCommand::MaxDelay { .. } => b"set_max_delay",
    }
}

fn put_fields(out: &mut Vec<u8>, command: &SdcCommand) -> Result<(), AllocError>
    ensures { OnOk result (out.new.items ≡ out.old.items ++ flat_map spaced (fields_of command.now)) }
{
    match command {
        SdcCommand::Clock {
            name,
            period,
            rise,
            fall,
            sources,
        } => {
            let times = ClockTimes {
                period: *period,
                rise: *rise,
                fall: *fall,
            };
            put_clock(out, name.as_slice(), times, sources.as_slice())
        }
        SdcCommand::InputDelay {
            amount,
            clock,
            edge,
            add,
            ports,
            ..
        }
        | SdcCommand::OutputDelay {
            amount,
            clock,
            edge,
            add,
            ports,
            ..
        } => {
            put_delay_start(out, *amount, clock.as_slice(), *edge)?;
            put_delay_end(out, *add, ports.as_slice())
        }
        SdcCommand::FalsePath { from, to, .. } => put_false_path(out, from, to),
        SdcCommand::Multicycle {
            count,
            by_launch,
            from,
            to,
            ..
        } => put_multicycle(out, *count, *by_launch, from, to),
        SdcCommand::MaxDelay {
            amount,
            from,
            to,
            ..
        } => {
            put_whole(out, *amount)?;
            put_between(out, from, to)
        }
    }
}

/// Adds a text in braces behind a space.
fn put_braced(out: &mut Vec<u8>, text: &[u8]) -> Result<(), AllocError>
    ensures { OnOk result (out.new.items ≡ out.old.items ++ spaced (braced text.now)) }
{
    out.extend_from_slice(b" {")?;
    out.extend_from_slice(text)?;
    out.push(b'}')?;
    Ok(())
}

fn put_period(out: &mut Vec<u8>, times: ClockTimes) -> Result<(), AllocError>
    ensures { OnOk result (out.new.items ≡ out.old.items ++ (spaced (codes "-period") ++ spaced (signed_decimal times.period))) }
{
    out.extend_from_slice(b" -period")?;
    put_whole(out, times.period)
}

fn put_edges(out: &mut Vec<u8>, times: ClockTimes) -> Result<(), AllocError>
    ensures { OnOk result (out.new.items ≡ out.old.items ++ spaced (edge_words times.rise times.fall)) }
{
    let mut buffer = Buffer::new();
    out.extend_from_slice(b" {")?;
    out.extend_from_slice(buffer.format(times.rise).as_bytes())?;
    put_whole(out, times.fall)?;
    out.push(b'}')?;
    Ok(())
}

fn put_clock(
    out: &mut Vec<u8>,
    name: &[u8],
    times: ClockTimes,
    sources: &[Object],
) -> Result<(), AllocError>
    ensures { OnOk result (out.new.items ≡ out.old.items ++ flat_map spaced (clock_words name.now times.period times.rise times.fall sources.now)) }
{
    out.extend_from_slice(b" -name")?;
    put_braced(out, name)?;
    put_period(out, times)?;
    out.extend_from_slice(b" -waveform")?;
    put_edges(out, times)?;
    put_objects(out, sources)?;
    Ok(())
}

fn put_delay_start(
    out: &mut Vec<u8>,
    amount: i64,
    clock: &[u8],
    edge: Edge,
) -> Result<(), AllocError>
    ensures { OnOk result (out.new.items ≡ out.old.items ++ flat_map spaced (delay_start amount clock.now edge)) }
{
    put_whole(out, amount)?;
    out.extend_from_slice(b" -clock")?;
    put_braced(out, clock)?;
    put_edge(out, edge)
}

fn put_edge(out: &mut Vec<u8>, edge: Edge) -> Result<(), AllocError>
    ensures { OnOk result (out.new.items ≡ out.old.items ++ flat_map spaced (edge_option edge)) }
{
    match edge {
        Edge::Rise => Ok(()),
        Edge::Fall => out.extend_from_slice(b" -clock_fall"),
    }
}

fn put_delay_end(out: &mut Vec<u8>, add: bool, ports: &[Object]) -> Result<(), AllocError>
    ensures { OnOk result (out.new.items ≡ out.old.items ++ flat_map spaced (delay_end add ports.now)) }
{
    out.extend_from_slice(b" -max")?;
    put_option(out, add, b"-add_delay")?;
    put_objects(out, ports)
}

/// Adds an option where it is wanted.
fn put_option(out: &mut Vec<u8>, wanted: bool, option: &[u8]) -> Result<(), AllocError>
    ensures { OnOk result (out.new.items ≡ out.old.items ++ flat_map spaced (option_if wanted option.now)) }
{
    if wanted {
        put_field(out, option)
    } else {
        Ok(())
    }
}

fn put_part(out: &mut Vec<u8>, option: &[u8], part: &Option<Objects>) -> Result<(), AllocError>
    ensures { OnOk result (out.new.items ≡ out.old.items ++ flat_map spaced (part_words option.now part.now)) }
{
    let Some(objects) = part else {
        return Ok(());
    };
    put_field(out, option)?;
    put_objects(out, objects.as_slice())
}

fn put_between(
    out: &mut Vec<u8>,
    from: &Option<Objects>,
    to: &Option<Objects>,
) -> Result<(), AllocError>
    ensures { OnOk result (out.new.items ≡ out.old.items ++ flat_map spaced (between from.now to.now)) }
{
    put_part(out, b"-from", from)?;
    put_part(out, b"-to", to)
}

fn put_false_path(
    out: &mut Vec<u8>,
    from: &Option<Objects>,
    to: &Option<Objects>,
) -> Result<(), AllocError>
    ensures { OnOk result (out.new.items ≡ out.old.items ++ flat_map spaced (codes "-setup" ∷ between from.now to.now)) }
{
    out.extend_from_slice(b" -setup")?;
    put_between(out, from, to)
}

fn put_multicycle(
    out: &mut Vec<u8>,
    count: u32,
    by_launch: bool,
    from: &Option<Objects>,
    to: &Option<Objects>,
) -> Result<(), AllocError>
    ensures { OnOk result (out.new.items ≡ out.old.items ++ flat_map spaced (cycle_words count by_launch from.now to.now)) }
{
    put_count(out, count)?;
    out.extend_from_slice(b" -setup")?;
    put_option(out, by_launch, b"-start")?;
    put_between(out, from, to)
}
