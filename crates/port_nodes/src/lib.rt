//! The nodes of a layering at the port bits of blocks.
#![tactic(auto)]

mod nodes;
mod ports;

pub use nodes::node_chains;
pub use ports::{input_nodes, output_nodes};
