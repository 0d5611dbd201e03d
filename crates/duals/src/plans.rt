ghost use Rattle.std.specs.Prelude.{◌≡◌, IfOk};
ghost use Rattle.bud_base.specs.Soundness.{IsSound};
ghost use Rattle.bud_plans.specs.Budgets.{AreBest};
ghost use Rattle.bud_plans.specs.Plans.{IsHolding, IsPlanOf, HasPlanNumbers};
ghost use Rattle.residual.specs.Networks.{Fits};
ghost use Rattle.residual.specs.Balances.{IsSettled};
ghost use Rattle.duals.specs.Duals.{HasBudgets, HasPotentials, HasFlows};

use crate::budgets::{budgets_by, weight_of};
use crate::readings::{arrivals_of, end_flows_of, item_flows_of, start_flows_of};
use bud_base::{Problem, Times};
use bud_plans::Plan;
use residual::Net;
use std::alloc::{AllocError, Global};

/// The best plan that a settled network proves: budgets from its potentials, arrivals and flows its own.
///
/// An item's budget is the lesser of its greatest and what the potentials gain along it, in ps.
pub fn plan_of(alloc: Global, net: &Net, problem: &Problem) -> Result<Plan, AllocError>
    requires sound { IsSound problem.now }
    requires fits { Fits net.now problem.now }
    requires settled { IsSettled net.now }
    ensures plan { IfOk result (IsPlanOf problem.now) }
    ensures holds { IfOk result (IsHolding problem.now) }
    ensures best { IfOk result (λ plan. AreBest problem.now plan.budgets) }
    ensures numbers { IfOk result HasPlanNumbers }
    ensures budgets { IfOk result (HasBudgets net.now problem.now) }
    ensures arrivals { IfOk result (HasPotentials net.now) }
    ensures flows { IfOk result (HasFlows net.now) }
{
    let items = problem.items.as_slice();
    let arrivals = arrivals_of(alloc, net, problem.nodes)?;
    let budgets = budgets_by(alloc, net, items)?;
    let flow = item_flows_of(alloc, net, problem.items.len() as u32)?;
    let start_flow = start_flows_of(alloc, net, problem.starts.len() as u32)?;
    let end_flow = end_flows_of(alloc, net, problem.ends.len() as u32)?;
    let weight = weight_of(items, &budgets);
    Ok(Plan {
        budgets: Times::from_vec(budgets),
        arrivals: Times::from_vec(arrivals),
        flow: Times::from_vec(flow),
        start_flow: Times::from_vec(start_flow),
        end_flow: Times::from_vec(end_flow),
        weight,
    })
}
