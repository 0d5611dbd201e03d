use bud_base::{ItemId, Listed};
use bud_plans::Plan;

/// The answer to a state.
#[derive(Debug, Drop)]
pub enum Answer {
    /// The least slack in ps, and a plan whose budgets are best.
    Best(i64, Plan),
    /// No path is constrained; the plan is empty.
    NoPaths(Plan),
    /// The least slack in ps, which is negative, and the items of a path that has it.
    Violated(i64, Listed<ItemId>),
}
