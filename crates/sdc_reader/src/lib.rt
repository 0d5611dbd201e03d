//! Constraints texts (SDC): their commands, as plain values.
#![tactic(auto)]

mod brackets;
mod collecting;
mod commands;
mod faults;
mod given;
mod lists;
mod numbers;
mod opened;
mod options;
mod reader;
#[cfg(test)]
mod tests;
mod values;
mod words;

pub use faults::SdcFault;
pub use reader::{one_answer, read_command, read_sdc};
