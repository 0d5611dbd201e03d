//! The wires of a flat design, in order of their last pins.
#![tactic(auto)]

mod gathering;
mod numbers;
mod sorting;

pub use gathering::{LocalWires, design_wires};
