//! The potentials of the nodes of a network, and those that were kept before the lifts of an open round.
#![tactic(auto)]

mod rounds;

pub use rounds::Potentials;

#[cfg(test)]
mod tests;
