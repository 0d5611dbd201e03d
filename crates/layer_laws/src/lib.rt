//! Laws of layerings: a design has one under a policy, and budgets mean the same of its problem and of the design.
#![tactic(auto)]

mod laws;

pub use laws::{best_over_designs, one_layering};
