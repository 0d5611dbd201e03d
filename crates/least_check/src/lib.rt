//! The least slack of a budgeting problem at least delays, and a worst path.
#![tactic(auto)]

mod arrivals;
mod checks;
mod traces;
mod worst_ends;
mod worst_paths;

pub use checks::{Least, LeastCheck};

#[cfg(test)]
mod tests;
