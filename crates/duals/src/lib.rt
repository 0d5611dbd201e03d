//! The best plan that a settled network proves: its potentials give arrivals and budgets, and its flows prove them.
#![tactic(auto)]

mod budgets;
mod plans;
mod readings;

pub use plans::plan_of;

#[cfg(test)]
mod tests;
