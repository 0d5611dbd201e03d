use bud_base::Text;
use thiserror::Error;

/// Why no constraint files are written for the blocks of a design.
#[derive(Debug, Drop, Error)]
pub enum WriteFault {
    /// A `-through` group has this pin, which is a port bit of a block or lies inside it.
    #[error("through pin inside a block")]
    ThroughInside(Text),
    /// A delay at a block's port that would be more than 10^9 ps either way.
    #[error("value out of range")]
    Range(i64),
    /// Want of memory.
    #[error("memory")]
    NoMemory,
}
