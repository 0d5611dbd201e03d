//! Names of a design that stand for themselves in braces.
#![tactic(auto)]

mod laws;

pub use laws::{names_are_kept, objects_are_written};
