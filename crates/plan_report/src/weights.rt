//! What the budgets of marked items weigh.
ghost use Rattle.std.specs.Prelude.{◌≡◌, ◌<◌, pos, ◌*ℤ◌, length};
ghost use Rattle.bud_base.specs.Paths.{item_at};
ghost use Rattle.bud_base.specs.Soundness.{IsSound};
ghost use Rattle.bud_flow.specs.Sums.{number_at};
ghost use Rattle.bud_plans.specs.Plans.{HasPlanNumbers};
ghost use Rattle.plan_cert.specs.Totals.{IsFactor, IsProduct, IsTotal};
ghost use Rattle.plan_report.specs.Weights.{marked_term, marked_weight};

use bud_base::Problem;
use bud_plans::Plan;

fn product(left: i64, right: i64) -> i128
    requires left { IsFactor left }
    requires right { IsFactor right }
    ensures value { result ≡ left *ℤ right }
    ensures range { IsProduct result }
{
    i128::from(left) * i128::from(right)
}

/// An item's weight times its budget.
fn budget_term(problem: &Problem, plan: &Plan, i: usize) -> i128
    requires sound { IsSound problem.now }
    requires within { i < length problem.now.items }
    requires size { length plan.now.budgets ≡ length problem.now.items }
    requires numbers { HasPlanNumbers plan.now }
    ensures value { result ≡ pos (item_at problem.now.items i).weight *ℤ number_at plan.now.budgets i }
    ensures range { IsProduct result }
{
    let weight = problem.items.as_slice()[i].weight;
    product(i64::from(weight), plan.budgets.as_slice()[i])
}

/// The same of a marked item, and 0 of another.
fn marked_term(problem: &Problem, plan: &Plan, marks: &[bool], i: usize) -> i128
    requires sound { IsSound problem.now }
    requires within { i < length problem.now.items }
    requires size { length plan.now.budgets ≡ length problem.now.items }
    requires marks { length marks.now ≡ length problem.now.items }
    requires numbers { HasPlanNumbers plan.now }
    ensures value { result ≡ marked_term marks.now problem.now plan.now.budgets i }
    ensures range { IsProduct result }
{
    if marks[i] {
        budget_term(problem, plan, i)
    } else {
        0
    }
}

/// What the budgets of the marked items weigh.
pub fn marked_weight(problem: &Problem, plan: &Plan, marks: &[bool]) -> i128
    requires sound { IsSound problem.now }
    requires size { length plan.now.budgets ≡ length problem.now.items }
    requires marks { length marks.now ≡ length problem.now.items }
    requires numbers { HasPlanNumbers plan.now }
    ensures { result ≡ marked_weight marks.now problem.now plan.now.budgets }
{
    let mut total: i128 = 0;
    for i in 0..problem.items.len() {
        total += marked_term(problem, plan, marks, i);
    }
    total
}
