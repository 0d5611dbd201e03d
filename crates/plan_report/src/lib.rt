//! The summary of a plan: what its budgets weigh, block by block, and what of the design has no budget.
#![tactic(auto)]

mod marks;
mod summaries;
#[cfg(test)]
mod tests;
mod weights;

pub use summaries::{put_head, summary};
