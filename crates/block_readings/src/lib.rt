//! Laws of the files that are written for blocks: they are accepted, mean what they should, and compose.
#![tactic(auto)]

mod laws;

pub use laws::{
    block_files_are_accepted, block_files_are_in_range, block_files_compose,
    block_files_mean_pieces, block_files_read_as_meant, writable_files_hold,
};
