//! What the names of clocks in constraints that are read are made of.
#![tactic(auto)]

mod laws;

pub use laws::clocks_have_names;
