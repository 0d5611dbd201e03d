use bud_base::Times;

/// Budgets of a problem, with arrivals that suit them and a flow that proves them.
///
/// It has one budget and one flow for each item, one arrival for each node, and one flow for each start and end.
#[derive(Debug, Drop)]
pub struct Plan {
    /// The budget of each item, in ps.
    pub budgets: Times,
    /// The arrival at each node, in ps.
    pub arrivals: Times,
    /// What each item carries.
    pub flow: Times,
    /// What comes in at each start.
    pub start_flow: Times,
    /// What goes out at each end.
    pub end_flow: Times,
    /// The sum of weight times budget.
    pub weight: i128,
}
