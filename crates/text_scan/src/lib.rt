//! What readers of texts share: cursors with exact decimals, and the least of two offsets.
#![tactic(auto)]

mod cursors;
mod decimals;
mod offsets;
mod scans;
#[cfg(test)]
mod tests;

pub use cursors::{Cursor, one_decimal};
pub use decimals::{Round, ScanFault};
pub use offsets::lesser_of;
