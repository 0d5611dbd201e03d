//! The first pin of a `-through` group that is a port bit of a block or lies inside it.
#![tactic(auto)]

mod pins;

pub use pins::first_through_pin;
