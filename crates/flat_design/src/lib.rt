//! The flat design of a netlist: its places, pins and wires, found by their names.
#![tactic(auto)]

mod flats;
mod keys;
mod kinds;
mod names;
mod texts;
mod writing;

pub use flats::Flat;
