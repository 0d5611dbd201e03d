//! Takes a residual network to one without excess: searches from nodes with excess to nodes that lack flow, and pushes along what they found.
#![tactic(auto)]

mod entries;
mod pushes;
mod searches;
mod solving;

pub use solving::solve;

#[cfg(test)]
mod tests;
