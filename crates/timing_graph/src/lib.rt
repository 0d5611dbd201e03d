//! The timing graph of a flat design: its arcs, and an order of the pins that they follow or a cycle.
#![tactic(auto)]

mod faults;
mod gathering;
mod graphs;
pub mod laws;
mod ordering;
mod rings;
#[cfg(test)]
mod tests;
mod timing_arcs;

pub use faults::{GraphFault, PinPair, PinPairs};
pub use graphs::Graph;
pub use timing_arcs::arcs;
