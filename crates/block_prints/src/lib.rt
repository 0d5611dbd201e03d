//! Files of blocks read back as they are.
#![tactic(auto)]

mod laws;

pub use laws::block_files_are_printable;
