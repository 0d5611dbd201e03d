//! Binding of a delay file (IEEE 1497) to a flat design: the delays of its wires and leaves, setup checks and launch
//! edges, or the first refusal.
#![tactic(auto)]

mod binding;
mod entries;
mod faults;
mod leaves;
mod names;
mod naming;
mod row_pins;
mod rows;
mod wires;

pub use binding::bind;
pub use faults::BindFault;
