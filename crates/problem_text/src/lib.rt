//! The text of a raw problem: its reader and its writer.
#![tactic(auto)]

mod lines;
mod reader;
#[cfg(test)]
mod tests;
mod writer;

pub use reader::{one_value, read_problem};
pub use writer::write_problem;
