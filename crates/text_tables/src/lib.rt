//! Texts by number: where a text stands among others.
#![tactic(auto)]

mod standings;

pub use standings::{Standing, TextTable};

#[cfg(test)]
mod tests;
