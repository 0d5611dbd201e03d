//! The states that launches reach: a pin in a class, and how arcs lead from state to state.
#![tactic(auto)]

mod entering;
mod exploring;
mod groups;
mod tables;

pub use exploring::explore;
pub use tables::{State, StateTable};
