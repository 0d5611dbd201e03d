//! Made designs: the four texts of a design of as many gates as are wanted, told by a number.
#![tactic(auto)]

mod constraints;
mod delays;
mod designs;
mod draws;
mod gates;
mod netlists;
mod policies;
mod signals;
#[cfg(test)]
mod tests;

pub use designs::{MadeDesign, make_design};
