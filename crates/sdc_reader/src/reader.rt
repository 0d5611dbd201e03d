ghost use Rattle.std.specs.Prelude.{◌≡◌, ◌<◌, ◌^◌, ℕ, List, Result, length, map, Ok, IfOk, All};
ghost use Rattle.bud_syntax.specs.Ranges.{IsReadCommand};
ghost use Rattle.bud_syntax.specs.declared.constraints.SdcCommand.{SdcCommand as Single};
ghost use Rattle.bud_syntax.specs.declared.constraints.SdcFile.{SdcFile as File};
ghost use Rattle.sdc_reader.specs.declared.faults.SdcFault.{SdcFault as Fault};
ghost use Rattle.std.specs.List.{AllByRecursion};
ghost use Rattle.sdc_reader.specs.Answers.{Gives, UnlessMemory, IsSyntax};
ghost use Rattle.sdc_reader.specs.Brackets.{Forest, Opens, opened};
ghost use Rattle.sdc_reader.specs.Commands.{command, single};
ghost use Rattle.sdc_reader.specs.Files.{file, OpenAll, HasAnswer, IsTorn, IsReadAnswer, advanced, none_more, only, HasCommand, HasNone, IsCommandAnswer};
ghost use Rattle.sdc_reader.specs.Rooms.{HaveRoom};
ghost use Rattle.sdc_reader.specs.declared.given.TimeUnit.TheVariants.{Nanoseconds};

use crate::brackets::open_all;
use crate::commands::{command, single};
use crate::faults::SdcFault;
use crate::given::{Line, TimeUnit};
use bud_base::Text;
use bud_syntax::{SdcCommand, SdcCommands, SdcFile};
use std::alloc::Global;
use tcl_words::{Command, TclFault, commands};

/// What was read so far, and the unit of times in force.
#[derive(Drop)]
pub struct Progress {
    unit: TimeUnit,
    design: Option<Text>,
    commands: SdcCommands,
}

/// The same with one line more.
fn advanced(progress: Progress, line: Line) -> Result<Progress, SdcFault>
    ensures { Gives (λ next. next) result (Ok (advanced progress line)) }
{
    let mut progress = progress;
    match line {
        Line::Nothing => {}
        Line::Unit(unit) => progress.unit = unit,
        Line::Design(name) => progress.design = Some(name),
        Line::Timing(command) => {
            if progress.commands.push(command).is_err() {
                return Err(SdcFault::NoMemory);
            }
        }
    }
    Ok(progress)
}

/// What a command does.
fn line(alloc: Global, unit: TimeUnit, words: Command) -> Result<Line, SdcFault>
    requires { HaveRoom words }
    ensures { (f : Forest) → Opens words f → Gives (λ line. line) result (command unit (opened f)) }
{
    let words = open_all(alloc, words)?;
    command(alloc, unit, words.as_slice())
}

/// Reads all these commands.
fn read_all(alloc: Global, commands: Vec<Command>) -> Result<SdcFile, SdcFault>
    requires { AllByRecursion HaveRoom commands.items }
    ensures { (fs : List Forest) → OpenAll commands.items fs → Gives (λ file. file) result (file Nanoseconds (map opened fs)) }
{
    let mut left = commands;
    left.reverse();
    let mut progress = Progress {
        unit: TimeUnit::Nanoseconds,
        design: None,
        commands: SdcCommands::new(alloc),
    };
    while let Some(words) = left.pop() {
        let line = line(alloc, progress.unit, words)?;
        progress = advanced(progress, line)?;
    }
    let Progress {
        design,
        commands,
        ..
    } = progress;
    Ok(SdcFile { design, commands })
}

/// Reads a constraints text: the commands of SDC that say clocks, delays at ports and exceptions.
///
/// Times are in nanoseconds until `set_units` says otherwise. Delays are rounded up, periods, waveforms and maximum
/// delays down, to whole ps. Where the text isn't made of words it is refused as Syntax. Else the first refused command
/// decides, and in it the first of its name, its words from left to right, and what is missing.
#[tactic(auto, using(crate::proofs::RangeLemmas::ranges_of))]
pub fn read_sdc(alloc: Global, text: &[u8]) -> Result<SdcFile, SdcFault>
    requires { length text.now < 2 ^ 31 }
    // What each answer says of the text.
    ensures answer { IsReadAnswer text.now result }
    // The one answer that a text has is given.
    ensures exact { (answer : Result File Fault) → HasAnswer text.now answer → UnlessMemory result (result ≡ answer) }
    // A text that isn't made of words is refused as that.
    ensures torn { IsTorn text.now → UnlessMemory result (IsSyntax result) }
    // The numbers of commands lie in their ranges.
    ensures ranges { IfOk result (λ file. All IsReadCommand file.commands) }
{
    read_answer(alloc, text)
}

/// The answer of a text.
fn read_answer(alloc: Global, text: &[u8]) -> Result<SdcFile, SdcFault>
    requires { length text.now < 2 ^ 31 }
    ensures { IsReadAnswer text.now result }
{
    match commands(alloc, text) {
        Ok(list) => read_all(alloc, list.into_vec()),
        Err(TclFault::Syntax(at)) => Err(SdcFault::Syntax(at)),
        Err(TclFault::NoMemory) => Err(SdcFault::NoMemory),
    }
}

/// A text has at most one answer, as constraints and as one command.
pub fn one_answer()
    ensures file { (text : List ℕ) (a b : Result File Fault) → HasAnswer text a → HasAnswer text b → a ≡ b }
    ensures command { (text : List ℕ) (a b : Result Single Fault) → HasCommand text a → HasCommand text b → a ≡ b }
{}

/// Refuses a command that stands here, at its name.
fn none_more(commands: &[Command]) -> Result<(), SdcFault>
    ensures { Gives (λ done. done) result (none_more commands.now) }
{
    let Some((words, _)) = commands.split_first() else {
        return Ok(());
    };
    match words.as_slice().split_first() {
        None => Err(SdcFault::Syntax(0)),
        Some((name, _)) => Err(SdcFault::Syntax(name.at)),
    }
}

/// Reads the first command, and refuses others.
fn read_only(alloc: Global, first: Command, others: &[Command]) -> Result<SdcCommand, SdcFault>
    requires { HaveRoom first }
    ensures { (f : Forest) → Opens first f → Gives (λ command. command) result (only (single (opened f)) others.now) }
{
    let words = open_all(alloc, first)?;
    let command = single(alloc, words.as_slice())?;
    none_more(others)?;
    Ok(command)
}

/// Reads a text that is one timing command, with times in nanoseconds.
///
/// Syntax comes where the text isn't made of words or has no command, and at the name of a second command. Commands that
/// say nothing of timing (`set`, `set_units`, `current_design`) aren't known here. Else it is as with `read_sdc`.
#[tactic(auto, using(crate::proofs::RangeLemmas::range_of))]
pub fn read_command(alloc: Global, text: &[u8]) -> Result<SdcCommand, SdcFault>
    requires { length text.now < 2 ^ 31 }
    // What each answer says of the text.
    ensures answer { IsCommandAnswer text.now result }
    // The one answer that a text with a command has is given.
    ensures exact { (answer : Result Single Fault) → HasCommand text.now answer → UnlessMemory result (result ≡ answer) }
    // A text that isn't made of words, or has no command, is refused as that.
    ensures none { HasNone text.now → UnlessMemory result (IsSyntax result) }
    // The numbers of the command lie in their ranges.
    ensures ranges { IfOk result (λ command. IsReadCommand command) }
{
    read_first(alloc, text)
}

/// The first command of a text, and the refusal of others.
fn read_first(alloc: Global, text: &[u8]) -> Result<SdcCommand, SdcFault>
    requires { length text.now < 2 ^ 31 }
    ensures answer { IsCommandAnswer text.now result }
{
    match commands(alloc, text) {
        Ok(list) => {
            let mut all = list.into_vec();
            if all.is_empty() {
                return Err(SdcFault::Syntax(0));
            }
            let first = all.remove(0);
            read_only(alloc, first, all.as_slice())
        }
        Err(TclFault::Syntax(at)) => Err(SdcFault::Syntax(at)),
        Err(TclFault::NoMemory) => Err(SdcFault::NoMemory),
    }
}
