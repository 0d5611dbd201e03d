//! What the names of a design's clocks are made of.
#![tactic(auto)]

mod laws;

pub use laws::constraints_have_names;
