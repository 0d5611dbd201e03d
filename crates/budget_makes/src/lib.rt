//! The job `make`: best budgets of a made design.
#![tactic(auto)]

mod jobs;
mod makes;
mod own_files;
#[cfg(test)]
mod tests;
mod words;

pub use jobs::make;
pub use words::{gates_of, number_of};
