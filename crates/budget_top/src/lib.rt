//! The jobs of the program, from the bytes that a shelf lends to the bytes that a sink takes.
#![tactic(auto)]

mod finish;
mod jobs;
mod plans;
mod problems;
mod raw_files;
mod run;
#[cfg(test)]
mod tests;
mod words;

pub use run::run_budget;
