//! The entries of one search over the nodes of a network, and a heap that finds the nearest.
#![tactic(auto)]

mod entries;
mod heaps;
mod offers;
mod searches;

pub use entries::{Entry, Near};
pub use searches::Search;

#[cfg(test)]
mod tests;
