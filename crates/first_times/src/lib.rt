//! Arrivals with which a network begins: those that share the slack of each node, where they suit.
#![tactic(auto)]

mod checks;
mod guesses;
mod sharing;
mod sweeps;

pub use sharing::first_times;
