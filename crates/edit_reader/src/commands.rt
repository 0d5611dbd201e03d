ghost use Rattle.std.specs.Prelude.{◌≡◌, ◌<◌, ◌≤◌, IfOk, Err};
ghost use Rattle.sdc_reader.specs.Files.{HasCommand};
ghost use Rattle.sdc_reader.specs.declared.faults.SdcFault.{SdcFault as Fault};
ghost use Rattle.line_text.specs.Answers.{IsFaultWithin};
ghost use Rattle.line_text.specs.Spans.{part_of, stop};
ghost use Rattle.edit_reader.specs.Reading.{IsAddedAnswer, IsAddedWithin, refusal_of};

use bud_base::TextFault;
use bud_syntax::SdcCommand;
use line_text::Span;
use sdc_reader::{SdcFault, read_command};
use std::alloc::Global;

/// What stands behind `add`.
#[derive(Drop)]
pub enum Added {
    Command(SdcCommand),
    /// A command that is refused for a number; the offset in the script.
    OutOfRange(usize),
}

/// A number at this offset of the text of a command is out of its range.
fn out_of_range(text: Span<'_>, at: usize) -> Result<Added, TextFault>
    ensures answer { HasCommand text.entry.bytes.now (Err (Fault.Value at)) → IsAddedAnswer (part_of text.entry) result }
    ensures fault { IsFaultWithin (stop text.entry) result }
    ensures within { IfOk result (IsAddedWithin (stop text.entry)) }
{
    // A word of the text never begins behind it.
    if at > text.bytes.len() {
        return Err(TextFault::NoMemory);
    }
    Ok(Added::OutOfRange(text.at + at))
}

/// How a text is refused that isn't one timing command.
#[derive(Clone, Copy)]
pub enum Refusal {
    Memory,
    /// A number at this offset of the text is out of its range.
    OutOfRange(usize),
    Other,
}

fn refusal_of(fault: SdcFault) -> Refusal
    ensures { result ≡ refusal_of fault }
{
    match fault {
        SdcFault::Value(at) => Refusal::OutOfRange(at),
        SdcFault::NoMemory => Refusal::Memory,
        SdcFault::Syntax(_) => Refusal::Other,
        SdcFault::UnknownCommand(_, _) => Refusal::Other,
        SdcFault::UnknownOption(_, _) => Refusal::Other,
    }
}

/// Reads a text as one timing command, with times in nanoseconds.
pub fn timing_command(alloc: Global, text: Span<'_>) -> Result<Added, TextFault>
    requires { stop text < 2147483648 }
    ensures answer { IsAddedAnswer (part_of text.entry) result }
    ensures fault { IsFaultWithin (stop text.entry) result }
    ensures within { IfOk result (IsAddedWithin (stop text.entry)) }
{
    match read_command(alloc, text.bytes) {
        Ok(command) => Ok(Added::Command(command)),
        Err(fault) => match refusal_of(fault) {
            Refusal::OutOfRange(at) => out_of_range(text, at),
            Refusal::Memory => Err(TextFault::NoMemory),
            Refusal::Other => Err(TextFault::Syntax(text.at)),
        },
    }
}
