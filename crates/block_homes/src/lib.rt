//! Laws of where the checks and the arcs of a bound delay file stand.
#![tactic(auto)]

mod laws;

pub use laws::{arcs_have_homes, checks_stand_together};
