//! Budgets of a problem and plans of them, with what they mean, and the laws of budgets.
#![tactic(auto)]

mod laws;
mod plans;

pub use laws::{holding_plan_is_best, suited_budgets_fit, weight_is_at_most_value};
pub use plans::Plan;
