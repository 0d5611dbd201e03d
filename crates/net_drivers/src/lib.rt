//! Which pin drives each net bit of a module of a netlist.
#![tactic(auto)]

mod chains;
mod covers;
mod drives;
mod joins;
mod links;
mod numbers;
mod pins;
mod slots;
mod wires;
mod wirings;

pub use pins::{LocalPin, LocalWire};
pub use wirings::{Wiring, wire_module};
