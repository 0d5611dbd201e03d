//! What the names of a netlist that is read are made of.
#![tactic(auto)]

mod laws;

pub use laws::names_are_identifiers;
