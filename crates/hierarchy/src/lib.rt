//! Elaboration: the flat design of a netlist, or its first refusal.
#![tactic(auto)]

mod elaboration;
mod placing;
#[cfg(test)]
mod tests;
mod walks;
mod wirings;

pub use elaboration::elaborate;
