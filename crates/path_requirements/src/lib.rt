//! The setup relation of two clock edges, and the requirement of a path.
#![tactic(auto)]

pub mod laws;
mod matching;
mod relations;
mod requirements;
#[cfg(test)]
mod tests;

pub use relations::relation;
pub use requirements::requirement;
