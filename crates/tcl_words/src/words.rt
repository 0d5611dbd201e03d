use bud_base::{Listed, Text};
use thiserror::Error;

/// How a word is written.
#[derive(Clone, Copy, Debug, PartialEq, Eq)]
pub enum WordKind {
    /// Without quotes, braces or brackets.
    Bare,
    /// Between double quotes.
    Quoted,
    /// Between braces.
    Braced,
    /// Between brackets.
    Bracket,
}

/// A word of a command.
#[derive(Debug, Drop)]
pub struct Word {
    /// The offset in the text at which the word begins, with its quote, brace or bracket.
    pub at: usize,
    pub kind: WordKind,
    /// The bytes that the word stands for; of a word in braces or brackets the bytes between these as they stand.
    pub text: Text,
}

/// The words of a command, the first of which is its name.
pub type Command = Listed<Word>;

pub type CommandList = Listed<Command>;

/// Why a text isn't split into words.
#[derive(Clone, Copy, Debug, PartialEq, Eq, Error)]
pub enum TclFault {
    /// The text isn't made of words; the offset is within the text.
    #[error("syntax")]
    Syntax(usize),
    /// Want of memory.
    #[error("memory")]
    NoMemory,
}
