//! Which clock reaches each pin of a flat design.
#![tactic(auto)]

mod fanout;
mod reaches;
mod walks;

pub use reaches::{PinClocks, reaching_clocks};
