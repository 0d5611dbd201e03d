//! The constraints that timing commands give a flat design: clocks, launches, captures and exceptions.
#![tactic(auto)]

mod gathering;
mod ordering;
mod resolving;

pub use resolving::resolve;
