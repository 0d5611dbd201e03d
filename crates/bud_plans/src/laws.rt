//! Laws of budgets. Each holds of all values, and its function does nothing.

ghost use Rattle.std.specs.Prelude.{ℤ, List, ◌≤ℤ◌};
ghost use Rattle.bud_base.specs.Soundness.{IsSound};
ghost use Rattle.bud_base.specs.declared.problems.Problem.{Problem};
ghost use Rattle.bud_flow.specs.Flows.{Flow, IsBalanced, value_of};
ghost use Rattle.bud_plans.specs.Budgets.{AreWithinBounds, Fit, AreBest, weight_of, SuitBudgets};
ghost use Rattle.bud_plans.specs.Plans.{IsHolding};
ghost use Rattle.bud_plans.specs.declared.plans.Plan.{Plan};

/// No budgets that fit weigh more than any balanced flow is worth.
pub fn weight_is_at_most_value()
    ensures { (p : Problem) (budgets : List ℤ) (flow : Flow) → IsSound p → Fit p budgets → IsBalanced p flow → weight_of p budgets ≤ℤ value_of p flow }
{}

/// Budgets within bounds that some arrivals suit fit along every path.
pub fn suited_budgets_fit()
    ensures { (p : Problem) (budgets arrivals : List ℤ) → AreWithinBounds p budgets → SuitBudgets p budgets arrivals → Fit p budgets }
{}

/// The budgets of a plan that holds are best.
pub fn holding_plan_is_best()
    ensures { (p : Problem) (plan : Plan) → IsSound p → IsHolding p plan → AreBest p plan.budgets }
{}
