//! The layering of a flat design: its budgeting problem, whose paths stand for the constrained paths.
#![tactic(auto)]

mod arc_items;
mod checking;
mod group_marks;
mod grouped_states;
mod layers;
mod weights;

pub use layers::{layer, layer_without_policy};
