ghost use Rattle.std.specs.Prelude.{◌≡◌, ◌<◌, IfOk};
ghost use Rattle.bud_base.specs.Paths.{Meets};
ghost use Rattle.bud_base.specs.Soundness.{IsSound};
ghost use Rattle.bud_plans.specs.Plans.{IsPlanOf, IsHolding, HasPlanNumbers};

use bud_base::{Problem, Steps};
use bud_plans::Plan;
use duals::plan_of;
use flow_solver::solve;
use residual::Net;
use std::alloc::{AllocError, Global};
use std::marker::Brand;
use std::sync::ledger::{Blank, Ledger};

/// A plan that holds of a problem that meets at least delays, so that its budgets are best.
pub fn best_plan(alloc: Global, problem: &Problem) -> Result<Plan, AllocError>
    requires sound { IsSound problem.now }
    requires meets { Meets problem.now }
    ensures plan { IfOk result (IsPlanOf problem.now) }
    ensures holds { IfOk result (IsHolding problem.now) }
    ensures numbers { IfOk result HasPlanNumbers }
{
    searched::<Brand>(alloc, problem, Blank::new(1))
}

/// The same by a flow of least cost; the looks at arcs are counted and forgotten.
fn searched<L: Ledger>(alloc: Global, problem: &Problem, blank: Blank) -> Result<Plan, AllocError>
    requires name { blank.name ≡ L.name }
    requires parts { blank.parts ≡ L.parts }
    requires some { 0 < blank.parts }
    requires sound { IsSound problem.now }
    requires meets { Meets problem.now }
    ensures plan { IfOk result (IsPlanOf problem.now) }
    ensures holds { IfOk result (IsHolding problem.now) }
    ensures numbers { IfOk result HasPlanNumbers }
{
    let mut net = Net::new(alloc, problem)?;
    let mut steps = Steps::<L>::new(blank);
    solve(alloc, &mut net, problem, &mut steps)?;
    plan_of(alloc, &net, problem)
}
