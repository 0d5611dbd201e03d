//! The residual network of a problem: arcs with flows, potentials that keep reduced costs at least 0, and excess.
#![tactic(auto)]

mod adjacency;
mod arcs;
mod arrivals;
mod comparisons;
mod nets;
mod walks;

pub use arcs::Look;
pub use nets::Net;

#[cfg(test)]
mod tests;
