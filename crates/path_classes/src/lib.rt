//! The layering of a design: its budgeting problem, with what nodes and items stand for.
#![tactic(auto)]

mod ends;
mod items;
pub mod laws;
mod layering;
mod nodes;
mod starts;

pub use layering::layer_arcs;
