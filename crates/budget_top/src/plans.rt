ghost use Rattle.std.specs.Prelude.{IfOk};
ghost use Rattle.bud_base.specs.Paths.{Meets};
ghost use Rattle.bud_base.specs.Soundness.{IsSound};
ghost use Rattle.budget_top.specs.Problems.{IsCertText};

use bud_base::{Problem, Text};
use budget_plans::best_plan;
use plan_cert::{raw_cert_of, write_cert};
use std::alloc::{AllocError, Global};

/// The text of a best plan's certificate.
pub fn best_text(alloc: Global, problem: &Problem) -> Result<Text, AllocError>
    requires sound { IsSound problem.now }
    requires meets { Meets problem.now }
    ensures { IfOk result (IsCertText problem.now) }
{
    let plan = best_plan(alloc, problem)?;
    let cert = raw_cert_of(alloc, problem, &plan)?;
    write_cert(alloc, &cert)
}
