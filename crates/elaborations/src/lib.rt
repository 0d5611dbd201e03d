//! The flat design of a netlist: what elaboration makes of its modules (IEEE 1364), and the laws of it.
#![tactic(auto)]

mod laws;

pub use laws::{elaborated_netlist_is_a_design, instances_make_a_tree, one_design};
