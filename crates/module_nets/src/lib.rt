//! What one module of a netlist is, net bit by net bit, and what is refused as it is entered.
#![tactic(auto)]

mod faults;
mod gathering;
mod guesses;
mod headers;
mod judging;
mod keys;
mod libraries;
mod names;
mod nets;
mod tables;
#[cfg(test)]
mod tests;
mod tops;
mod widths;

pub use faults::ElabFault;
pub use headers::{Header, range_width};
pub use judging::{Entered, enter};
pub use libraries::Library;
pub use names::{printed, printed_below};
pub use nets::{NetTable, Span};
pub use tops::top;
