use bud_base::Text;
use thiserror::Error;

/// Why a constraints text is refused. Each offset is where the refused word begins; for a word that is missing it is
/// where the name of its command begins.
#[derive(Debug, Drop, Error)]
pub enum SdcFault {
    /// The text isn't of the grammar.
    #[error("syntax")]
    Syntax(usize),
    /// No command of this name is known.
    #[error("unknown command")]
    UnknownCommand(Text, usize),
    /// The command has no option of this name.
    #[error("unknown option")]
    UnknownOption(Text, usize),
    /// A number is out of its range, or a clock's name isn't one that a clock may have.
    #[error("value")]
    Value(usize),
    /// Want of memory.
    #[error("memory")]
    NoMemory,
}
