//! Structural Verilog: the reader of netlists.
#![tactic(auto)]

mod assembly;
mod constants;
mod declarations;
mod faults;
mod items;
mod joining;
mod joints;
mod laws;
mod left;
mod links;
mod lists;
mod moves;
mod names;
mod netlists;
mod numbers;
mod pieces;
mod reader;
mod readers;
mod readings;
mod sources;
mod spellings;
mod surveys;
mod tables;
#[cfg(test)]
mod tests;
mod trees;
mod words;

pub use faults::VerilogFault;
pub use laws::nesting_has_no_meaning;
pub use reader::{one_value, read_verilog};
