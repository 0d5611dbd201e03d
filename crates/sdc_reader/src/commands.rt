ghost use Rattle.std.specs.Prelude.{◌≡◌, Err};
ghost use Rattle.sdc_reader.specs.declared.faults.SdcFault.TheVariants.{UnknownCommand};
ghost use Rattle.sdc_reader.specs.Answers.{Gives};
ghost use Rattle.sdc_reader.specs.Commands.{needed, either, first_name, edges_of, objects_of, edge_of, is_setup, has_part, clock_line, input_delay_line, output_delay_line, false_path_line, multicycle_line, max_delay_line, unit_line, line, nothing_awaited, kind_word, is_version, behind_variable, is_set, behind_name, obeyed, command, is_timing, timing_of, single};

use crate::collecting::{collect_all, is_named};
use crate::faults::SdcFault;
use crate::given::{Given, Line, Setting, TimeUnit, Waveform};
use crate::numbers::half;
use crate::opened::{Inside, Opened};
use crate::options::{CommandKind, SdcOption, kind_of};
use crate::values::name_in;
use crate::words::copied;
use bud_base::{Listed, Text};
use bud_syntax::{Edge, Object, Objects, SdcCommand};
use std::alloc::Global;
use tcl_words::Word;

/// A word that is needed by the command whose name begins at `at`.
fn needed<T: Drop>(at: usize, value: Option<T>) -> Result<T, SdcFault>
    ensures { Gives (λ x. x) result (needed at value) }
{
    match value {
        Some(value) => Ok(value),
        None => Err(SdcFault::Syntax(at)),
    }
}

/// The name of a clock, or else that of its first source.
fn clock_name(
    alloc: Global,
    at: usize,
    name: Option<Text>,
    sources: &[Object],
) -> Result<Text, SdcFault>
    ensures { Gives (λ name. name) result (needed at (either name (first_name sources.now))) }
{
    if let Some(name) = name {
        return Ok(name);
    }
    let Some(first) = sources.first() else {
        return Err(SdcFault::Syntax(at));
    };
    match name_in(first) {
        Some(name) => copied(alloc, name),
        None => Err(SdcFault::Syntax(at)),
    }
}

fn edges_of(period: i64, waveform: Option<Waveform>) -> Waveform
    ensures { result ≡ edges_of period waveform }
{
    match waveform {
        Some(waveform) => waveform,
        None => Waveform {
            rise: 0,
            fall: half(period),
        },
    }
}

fn objects_of(alloc: Global, objects: Option<Objects>) -> Objects
    ensures { result ≡ objects_of objects }
{
    match objects {
        Some(objects) => objects,
        None => Listed::new(alloc),
    }
}

fn edge_of(fall: bool) -> Edge
    ensures { result ≡ edge_of fall }
{
    if fall { Edge::Fall } else { Edge::Rise }
}

/// An exception has a from-part, a through group or a to-part.
fn has_part(at: usize, given: &Given) -> Result<(), SdcFault>
    ensures { Gives (λ done. done) result (has_part at given.now) }
{
    if given.from.is_none() && given.through.is_empty() && given.to.is_none() {
        return Err(SdcFault::Syntax(at));
    }
    Ok(())
}

#[tactic(auto, unfolding(crate::specs::Commands::clock_line))]
fn clock_line(alloc: Global, at: usize, given: Given) -> Result<Line, SdcFault>
    ensures { Gives (λ line. line) result (clock_line at given) }
{
    let period = needed(at, given.period)?;
    let sources = objects_of(alloc, given.objects);
    let name = clock_name(alloc, at, given.name, sources.as_slice())?;
    let Waveform { rise, fall } = edges_of(period, given.waveform);
    Ok(Line::Timing(SdcCommand::Clock {
        name,
        period,
        rise,
        fall,
        sources,
    }))
}

#[tactic(auto, unfolding(crate::specs::Commands::input_delay_line))]
fn input_delay_line(at: usize, given: Given) -> Result<Line, SdcFault>
    ensures { Gives (λ line. line) result (input_delay_line at given) }
{
    let amount = needed(at, given.amount)?;
    let clock = needed(at, given.clock)?;
    let ports = needed(at, given.objects)?;
    let seen = given.seen;
    Ok(Line::Timing(SdcCommand::InputDelay {
        amount,
        clock,
        edge: edge_of(seen.clock_fall),
        setup: !(seen.min && !seen.max),
        add: seen.add_delay,
        ports,
    }))
}

#[tactic(auto, unfolding(crate::specs::Commands::output_delay_line))]
fn output_delay_line(at: usize, given: Given) -> Result<Line, SdcFault>
    ensures { Gives (λ line. line) result (output_delay_line at given) }
{
    let amount = needed(at, given.amount)?;
    let clock = needed(at, given.clock)?;
    let ports = needed(at, given.objects)?;
    let seen = given.seen;
    Ok(Line::Timing(SdcCommand::OutputDelay {
        amount,
        clock,
        edge: edge_of(seen.clock_fall),
        setup: !(seen.min && !seen.max),
        add: seen.add_delay,
        ports,
    }))
}

#[tactic(auto, unfolding(crate::specs::Commands::false_path_line))]
fn false_path_line(at: usize, given: Given) -> Result<Line, SdcFault>
    ensures { Gives (λ line. line) result (false_path_line at given) }
{
    has_part(at, &given)?;
    let seen = given.seen;
    Ok(Line::Timing(SdcCommand::FalsePath {
        setup: !(seen.hold && !seen.setup),
        from: given.from,
        through: given.through,
        to: given.to,
    }))
}

#[tactic(auto, unfolding(crate::specs::Commands::multicycle_line))]
fn multicycle_line(at: usize, given: Given) -> Result<Line, SdcFault>
    ensures { Gives (λ line. line) result (multicycle_line at given) }
{
    let count = needed(at, given.count)?;
    has_part(at, &given)?;
    let seen = given.seen;
    Ok(Line::Timing(SdcCommand::Multicycle {
        count,
        setup: !(seen.hold && !seen.setup),
        by_launch: seen.start,
        from: given.from,
        through: given.through,
        to: given.to,
    }))
}

#[tactic(auto, unfolding(crate::specs::Commands::max_delay_line))]
fn max_delay_line(at: usize, given: Given) -> Result<Line, SdcFault>
    ensures { Gives (λ line. line) result (max_delay_line at given) }
{
    let amount = needed(at, given.amount)?;
    has_part(at, &given)?;
    Ok(Line::Timing(SdcCommand::MaxDelay {
        amount,
        from: given.from,
        through: given.through,
        to: given.to,
    }))
}

fn unit_line(unit: Option<TimeUnit>) -> Line
    ensures { result ≡ unit_line unit }
{
    match unit {
        Some(unit) => Line::Unit(unit),
        None => Line::Nothing,
    }
}

/// What a command of this kind does that was given this, unless a word is missing.
#[tactic(auto, unfolding(crate::specs::Commands::line))]
fn line(alloc: Global, kind: CommandKind, at: usize, given: Given) -> Result<Line, SdcFault>
    ensures { Gives (λ line. line) result (line kind at given) }
{
    match kind {
        CommandKind::Version => {
            if given.version {
                Ok(Line::Nothing)
            } else {
                Err(SdcFault::Syntax(at))
            }
        }
        CommandKind::Units => Ok(unit_line(given.unit)),
        CommandKind::Design => Ok(Line::Design(needed(at, given.name)?)),
        CommandKind::CreateClock => clock_line(alloc, at, given),
        CommandKind::InputDelay => input_delay_line(at, given),
        CommandKind::OutputDelay => output_delay_line(at, given),
        CommandKind::FalsePath => false_path_line(at, given),
        CommandKind::Multicycle => multicycle_line(at, given),
        CommandKind::MaxDelay => max_delay_line(at, given),
    }
}

fn nothing_awaited(at: usize, awaits: Option<SdcOption>) -> Result<(), SdcFault>
    ensures { Gives (λ done. done) result (nothing_awaited at awaits) }
{
    match awaits {
        None => Ok(()),
        Some(_) => Err(SdcFault::Syntax(at)),
    }
}

/// Refuses a command that isn't known.
fn refuse_command<T>(alloc: Global, name: &Word) -> Result<T, SdcFault>
    ensures { Gives (λ x. x) result (Err (UnknownCommand name.now.text name.now.at)) }
{
    let text = copied(alloc, name.text.as_slice())?;
    Err(SdcFault::UnknownCommand(text, name.at))
}

/// The command of this name.
#[tactic(auto, unfolding(crate::specs::Commands::kind_word))]
fn kind_word(alloc: Global, name: &Opened) -> Result<CommandKind, SdcFault>
    ensures { Gives (λ kind. kind) result (kind_word name.now) }
{
    match &name.inside {
        None => match kind_of(name.word.text.as_slice()) {
            Some(kind) => Ok(kind),
            None => refuse_command(alloc, &name.word),
        },
        Some(Inside::Empty) => Err(SdcFault::Syntax(name.word.at)),
        Some(Inside::Refused(_) | Inside::Command(_, _, _, _)) => {
            refuse_command(alloc, &name.word)
        }
    }
}

fn is_version(opened: &Opened) -> bool
    ensures { result ≡ is_version opened.now }
{
    opened.inside.is_none() && opened.word.text.as_slice() == b"sdc_version".as_slice()
}

fn is_set(kind: CommandKind) -> bool
    ensures { result ≡ is_set kind }
{
    match kind {
        CommandKind::Version => true,
        _ => false,
    }
}

/// What stands behind the name, and behind `set` also behind its variable.
fn behind_name<'a>(
    alloc: Global,
    kind: CommandKind,
    name: &Word,
    words: &'a [Opened],
) -> Result<&'a [Opened], SdcFault>
    ensures { Gives (λ rest. rest.now) result (behind_name kind name.now words.entry.now) }
{
    if !is_set(kind) {
        return Ok(words);
    }
    let Some((variable, rest)) = words.split_first() else {
        return Err(SdcFault::Syntax(name.at));
    };
    if is_version(variable) {
        Ok(rest)
    } else {
        refuse_command(alloc, name)
    }
}

/// What a command of this kind does: its words from left to right, then what is missing.
#[tactic(auto, unfolding(crate::specs::Commands::obeyed))]
fn obey(
    alloc: Global,
    unit: TimeUnit,
    kind: CommandKind,
    name: &Word,
    words: &[Opened],
) -> Result<Line, SdcFault>
    ensures { Gives (λ line. line) result (obeyed unit kind name.now words.now) }
{
    let words = behind_name(alloc, kind, name, words)?;
    let named = is_named(kind, words);
    let setting = Setting { unit, kind, named };
    let last = collect_all(alloc, setting, words)?;
    nothing_awaited(name.at, last.awaits)?;
    line(alloc, kind, name.at, last.given)
}

/// What a command does that has these words.
#[tactic(auto, unfolding(crate::specs::Commands::command))]
pub fn command(alloc: Global, unit: TimeUnit, words: &[Opened]) -> Result<Line, SdcFault>
    ensures { Gives (λ line. line) result (command unit words.now) }
{
    let Some((name, rest)) = words.split_first() else {
        return Ok(Line::Nothing);
    };
    let kind = kind_word(alloc, name)?;
    obey(alloc, unit, kind, &name.word, rest)
}

fn is_timing(kind: CommandKind) -> bool
    ensures { result ≡ is_timing kind }
{
    match kind {
        CommandKind::Version | CommandKind::Units | CommandKind::Design => false,
        _ => true,
    }
}

fn timing_of(line: Line) -> Result<SdcCommand, SdcFault>
    ensures { Gives (λ command. command) result (timing_of line) }
{
    match line {
        Line::Timing(command) => Ok(command),
        _ => Err(SdcFault::Syntax(0)),
    }
}

/// The timing command that has these words, with times in nanoseconds.
#[tactic(auto, unfolding(crate::specs::Commands::single))]
pub fn single(alloc: Global, words: &[Opened]) -> Result<SdcCommand, SdcFault>
    ensures { Gives (λ command. command) result (single words.now) }
{
    let Some((name, rest)) = words.split_first() else {
        return Err(SdcFault::Syntax(0));
    };
    let kind = kind_word(alloc, name)?;
    if !is_timing(kind) {
        return refuse_command(alloc, &name.word);
    }
    let line = obey(alloc, TimeUnit::Nanoseconds, kind, &name.word, rest)?;
    timing_of(line)
}
