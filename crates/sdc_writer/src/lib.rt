//! The text of timing constraints.
#![tactic(auto)]

mod objects;
#[cfg(test)]
mod tests;
mod writer;

pub use writer::print_sdc;
