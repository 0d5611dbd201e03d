//! Whether constraint files may be written for the blocks of a design.
#![tactic(auto)]

mod amounts;
mod blocks;
mod values;

pub use blocks::check_blocks;
