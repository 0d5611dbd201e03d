//! How a class goes on from pin to pin.
#![tactic(auto)]

mod classes;
mod groups;
mod keys;
mod steps;
mod tables;

pub use classes::{next_class, same_class};
pub use groups::{GroupPin, GroupPins};
pub use tables::ClassTable;

#[cfg(test)]
mod tests;
