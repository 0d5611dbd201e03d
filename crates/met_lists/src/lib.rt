//! The exceptions that each launch meets.
#![tactic(auto)]

mod classes;
mod launches;
mod lists;
mod turns;

pub use classes::first_classes;

#[cfg(test)]
mod tests;
