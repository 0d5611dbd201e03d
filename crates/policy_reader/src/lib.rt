//! The policy of a budget: its blocks, and the extra and the weight of arcs.
#![tactic(auto)]

mod lines;
mod reader;
#[cfg(test)]
mod tests;

pub use lines::policy_line;
pub use reader::{one_value, read_policy};
