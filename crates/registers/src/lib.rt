//! Registers: their clock pins and data pins, launch edges, setup checks, and the pairs of pins that delays lead through.
#![tactic(auto)]

mod check_tables;
mod edge_sets;
mod entries;
mod faults;
mod launches;
mod marks;
mod pair_tables;
mod register_faults;
mod register_marks;
mod tables;

pub use check_tables::check_table;
pub use entries::{Setup, Setups, Through, Throughs};
pub use faults::RegisterFault;
pub use launches::launch_edges;
pub use pair_tables::{PairTable, pair_table};
pub use register_faults::fault_of_registers;
pub use register_marks::RegisterMarks;
