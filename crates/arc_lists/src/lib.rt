//! For each node of a network, the residual arcs that leave it.
#![tactic(auto)]

mod lists;

pub use lists::ArcLists;

#[cfg(test)]
mod tests;
