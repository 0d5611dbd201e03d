//! The steps on a raw problem and its certificate.
ghost use Rattle.std.specs.Prelude.{◌≡◌, OnOk};
ghost use Rattle.bud_base.specs.Paths.{Meets};
ghost use Rattle.bud_base.specs.Soundness.{IsListable, IsSound};
ghost use Rattle.bud_plans.specs.Plans.{HasPlanNumbers};
ghost use Rattle.cert_text.specs.Certs.{plan_in};
ghost use Rattle.plan_cert.specs.Raw.{IsRawFault};
ghost use Rattle.budget_steps.specs.Steps.{Follows};
ghost use Rattle.budget_top.specs.Problems.{sound, measured, verdict, IsFirstLine};

use crate::plans::best_text;
use bud_base::{Listed, Problem, Text};
use budget_report::{Cause, Scene, Status, holds_text, meets_text, no_paths_text, violation_text};
use budget_steps::{Answer, Said, Stop, refused};
use least_check::{Least, LeastCheck};
use plan_cert::{Cert, CertAnswer, Sums, check_raw};
use std::alloc::Global;

/// Whether the problem is sound.
pub fn sound(alloc: Global, problem: &Problem) -> Result<(), Stop>
    requires { IsListable problem.now }
    ensures course { Follows (sound problem.now) result }
    ensures sound { OnOk result (IsSound problem.now) }
{
    match problem.check() {
        Ok(()) => Ok(()),
        Err(fault) => Err(refused(alloc, &Cause::Problem(fault), Scene::Raw(problem))),
    }
}

/// The least slack, and a best plan where none is negative, or else a worst violated path.
pub fn measured(alloc: Global, problem: &Problem) -> Result<Answer, Stop>
    requires { IsSound problem.now }
    ensures { Follows (measured problem.now) result }
{
    let mut check = LeastCheck::new(alloc, problem)?;
    match check.run(problem) {
        Least::NoPaths => certified(alloc, problem, no_paths_text(alloc)?),
        Least::Meets(slack) => certified(alloc, problem, meets_text(alloc, slack)?),
        Least::Violated(slack) => {
            let (start, end) = check.ends();
            let scene = Scene::Raw(problem);
            let text = violation_text(alloc, scene, slack, check.worst(), start, end)?;
            let said = Said {
                status: Status::Violated,
                text,
            };
            Ok(Answer {
                said,
                writes: Listed::new(alloc),
            })
        }
    }
}

/// Puts the certificate of a best plan behind a first line.
fn certified(alloc: Global, problem: &Problem, line: Text) -> Result<Answer, Stop>
    requires sound { IsSound problem.now }
    requires meets { Meets problem.now }
    requires line { IsFirstLine problem.now line }
    ensures { Follows (measured problem.now) result }
{
    let mut text = line;
    text.extend_from_slice(best_text(alloc, problem)?.as_slice())?;
    Ok(Answer::done(alloc, text))
}

/// Whether the certificate holds.
pub fn verdict(alloc: Global, problem: &Problem, cert: &Cert) -> Result<Answer, Stop>
    requires sound { IsSound problem.now }
    requires numbers { HasPlanNumbers (plan_in cert.now) }
    ensures { Follows (verdict problem.now cert.now) result }
{
    let mut sums = Sums::new(alloc, problem)?;
    match check_raw(problem, cert, &mut sums) {
        CertAnswer::Holds(weight) => Ok(Answer::done(alloc, holds_text(alloc, weight)?)),
        CertAnswer::Fault(fault) => Err(refused(alloc, &Cause::Cert(fault), Scene::Raw(problem))),
    }
}
