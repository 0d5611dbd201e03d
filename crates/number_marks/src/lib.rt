//! Sets of numbers as marks, and numbers by marks.
#![tactic(auto)]

mod marks;

pub use marks::{among, below, put_if};

#[cfg(test)]
mod tests;
