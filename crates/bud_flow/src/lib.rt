//! Flows of a problem: what they carry into and out of nodes, their balance and their value; and arrivals at its nodes.
#![tactic(auto)]

mod laws;

pub use laws::exchange_of_sums;
