use bud_base::Text;
use thiserror::Error;

/// Why a delay file is refused.
#[derive(Debug, Drop, Error)]
pub enum SdfFault {
    /// The text isn't in the loose form of the grammar; the offset is within the text.
    #[error("syntax")]
    Syntax(usize),
    /// The text isn't in the loose form, and this word of a part of the standard that is left out stands at the offset.
    #[error("unsupported")]
    Unsupported(Text, usize),
    /// The number of a value that begins at this offset passes 10^9 ps either way.
    #[error("value")]
    Value(usize),
    /// Want of memory.
    #[error("memory")]
    NoMemory,
}
