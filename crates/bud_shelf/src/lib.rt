//! The outside of the program as it sees it: shelves that hold files by name, and sinks that take bytes.
//!
//! `SafeShelf` and `SafeSink` live in memory and never fail. `MemShelf` and `MemSink` fail at the calls they are told
//! to fail at.
#![tactic(auto)]

mod calls;
mod memory;
mod safe;
mod shelves;
mod sinks;
mod stored;

pub use memory::{MemShelf, MemSink};
pub use safe::{SafeShelf, SafeSink};
pub use shelves::{LONGEST_FILE, Shelf, ShelfFault};
pub use sinks::{Sink, SinkFault};

#[cfg(test)]
mod tests;
