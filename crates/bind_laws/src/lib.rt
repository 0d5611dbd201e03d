//! Laws of bound delay files.
#![tactic(auto)]

mod laws;

pub use laws::one_timing;
