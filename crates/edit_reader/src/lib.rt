//! Scripts of edits: changes of delays, of timing commands and of the policy, and the lines at which a plan is asked for.
#![tactic(auto)]

mod commands;
mod lines;
mod numbered;
mod reader;
mod scripts;
#[cfg(test)]
mod tests;

pub use reader::{one_script, read_edits};
pub use scripts::{Script, ScriptLine};
