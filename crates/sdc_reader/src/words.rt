ghost use Rattle.std.specs.Prelude.{◌≡◌, ◌∷◌, [], map, Ok, MatchOption, length, ◌<◌, ◌++◌, OnOk};
ghost use Rattle.std.specs.List.{list_all};
ghost use Rattle.sdc_reader.specs.Answers.{Gives};
ghost use Rattle.sdc_reader.specs.Words.{is_bare, is_bracket, is_dashed, is_option, is_name_byte, is_clock_name};

use crate::faults::SdcFault;
use bud_base::Text;
use std::alloc::Global;
use tcl_words::{Word, WordKind};

pub fn is_bare(kind: WordKind) -> bool
    ensures { result ≡ is_bare kind }
{
    match kind {
        WordKind::Bare => true,
        WordKind::Quoted | WordKind::Braced | WordKind::Bracket => false,
    }
}

pub fn is_bracket(kind: WordKind) -> bool
    ensures { result ≡ is_bracket kind }
{
    match kind {
        WordKind::Bracket => true,
        WordKind::Bare | WordKind::Quoted | WordKind::Braced => false,
    }
}

/// Whether `-` stands at the front, and neither a digit nor a point behind it.
fn is_dashed(text: &[u8]) -> bool
    ensures { result ≡ is_dashed text.now }
{
    let Some((first, rest)) = text.split_first() else {
        return false;
    };
    match rest.first() {
        None => *first == b'-',
        Some(second) => *first == b'-' && !(second.is_ascii_digit() || *second == b'.'),
    }
}

/// Whether the word is an option, where it doesn't belong to one.
pub fn is_option(word: &Word) -> bool
    ensures { result ≡ is_option word.now }
{
    is_bare(word.kind) && is_dashed(word.text.as_slice())
}

fn is_name_byte(byte: u8) -> bool
    ensures { result ≡ is_name_byte byte }
{
    byte.is_ascii_alphanumeric()
        || byte == b'_'
        || byte == b'$'
        || byte == b'.'
        || byte == b'/'
        || byte == b'['
        || byte == b']'
        || byte == b'-'
        || byte == b':'
}

fn are_name_bytes(text: &[u8]) -> bool
    ensures { result ≡ list_all is_name_byte text.now }
{
    text.iter().all(|byte| is_name_byte(*byte))
}

/// Whether a clock may have this name.
pub fn is_clock_name(text: &[u8]) -> bool
    ensures { result ≡ is_clock_name text.now }
{
    !text.is_empty() && are_name_bytes(text)
}

/// A text of its own with these bytes.
pub fn copied(alloc: Global, text: &[u8]) -> Result<Text, SdcFault>
    ensures { Gives (λ copy. copy) result (Ok text.now) }
{
    match Vec::from_slice(alloc, text) {
        Ok(bytes) => Ok(Text::from_vec(bytes)),
        Err(_) => Err(SdcFault::NoMemory),
    }
}

/// Refuses so.
pub fn refuse<T>(alloc: Global, fault: &SdcFault) -> Result<T, SdcFault>
    ensures { Gives (λ x. x) result (Err fault.now) }
{
    match fault {
        SdcFault::Syntax(at) => Err(SdcFault::Syntax(*at)),
        SdcFault::UnknownCommand(name, at) => {
            let name = copied(alloc, name.as_slice())?;
            Err(SdcFault::UnknownCommand(name, *at))
        }
        SdcFault::UnknownOption(name, at) => {
            let name = copied(alloc, name.as_slice())?;
            Err(SdcFault::UnknownOption(name, *at))
        }
        SdcFault::Value(at) => Err(SdcFault::Value(*at)),
        SdcFault::NoMemory => Err(SdcFault::NoMemory),
    }
}
