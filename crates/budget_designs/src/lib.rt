//! The jobs on designs, from the bytes of a netlist, a delay file and timing constraints.
#![tactic(auto)]

mod design_files;
mod designs;
mod files;
mod jobs;
mod slacks;
mod timed_designs;

pub use design_files::{DesignFiles, load_design};
pub use designs::{constrained, elaborated, joined, timed, top_name};
pub use files::{ConstraintText, DelayText, NetlistText};
pub use jobs::least;
pub use slacks::violated;
pub use timed_designs::{TimedDesign, timed_design};
