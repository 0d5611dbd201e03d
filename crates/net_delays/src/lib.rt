//! Delays of nets: which pins wires join, and how much of a delay along several wires is left for the last one.
#![tactic(auto)]

mod alongs;
mod climbs;
mod drivers;
mod ends;
mod forests;
mod rests;
mod sums;
mod wire_forests;

pub use alongs::{Along, Alongs};
pub use rests::wire_delays;
pub use wire_forests::WireForest;
