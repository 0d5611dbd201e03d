//! The jobs, each as its steps in order.
ghost use Rattle.std.specs.Prelude.{◌≡◌, ◌≤◌};
ghost use Rattle.budget_steps.specs.Inputs.{seen};
ghost use Rattle.budget_top.specs.Jobs.{raw_job, prove_job, steps_of};
ghost use Rattle.budget_steps.specs.Steps.{Follows};
ghost use Rattle.budget_top.specs.Words.{asked, names_in, plan, check, IsAskable};

use crate::problems::{measured, sound, verdict};
use crate::raw_files::ProblemText;
use crate::words::{Job, PlanFiles};
use bud_shelf::Shelf;
use budget_designs::least;
use budget_makes::make;
use budget_plans::{CertText, check, plan};
use budget_steps::{Answer, Stop, load};
use std::alloc::Global;

/// Does a job.
pub fn answer<S: Shelf>(alloc: Global, shelf: &mut S, job: Job<'_>) -> Result<Answer, Stop>
    requires { IsAskable job }
    ensures course { Follows (steps_of (seen S.files S.faults shelf.old shelf.new) (asked job.entry)) result }
    ensures files { S.files shelf.new ≡ S.files shelf.old }
    ensures later { S.faults shelf.old ≤ S.faults shelf.new }
{
    match job {
        Job::Raw(problem) => raw(alloc, shelf, problem),
        Job::Prove(problem, cert) => prove(alloc, shelf, problem, cert),
        Job::Least(netlist, delays, constraints) => {
            least(alloc, shelf, netlist, delays, constraints)
        }
        Job::Plan(files) => planned(alloc, shelf, files),
        Job::Check(files) => checked(alloc, shelf, files),
        Job::Make(gates, number) => make(alloc, gates, number),
    }
}

/// `raw P`: the least slack of a problem and a certificate of best budgets, or a worst violated path.
fn raw<S: Shelf>(alloc: Global, shelf: &mut S, name: &str) -> Result<Answer, Stop>
    ensures course { Follows (raw_job (seen S.files S.faults shelf.old shelf.new) name.now) result }
    ensures files { S.files shelf.new ≡ S.files shelf.old }
    ensures later { S.faults shelf.old ≤ S.faults shelf.new }
{
    let problem = load::<ProblemText, S>(alloc, shelf, name)?;
    sound(alloc, &problem)?;
    measured(alloc, &problem)
}

/// `prove P CERT`: checks a certificate of a raw problem, whoever wrote it.
fn prove<S: Shelf>(alloc: Global, shelf: &mut S, problem: &str, cert: &str) -> Result<Answer, Stop>
    ensures course { Follows (prove_job (seen S.files S.faults shelf.old shelf.new) problem.now cert.now) result }
    ensures files { S.files shelf.new ≡ S.files shelf.old }
    ensures later { S.faults shelf.old ≤ S.faults shelf.new }
{
    let problem = load::<ProblemText, S>(alloc, shelf, problem)?;
    let cert = load::<CertText, S>(alloc, shelf, cert)?;
    sound(alloc, &problem)?;
    verdict(alloc, &problem, &cert)
}

/// `plan V SDF SDC POLICY CERT`.
fn planned<S: Shelf>(alloc: Global, shelf: &mut S, files: PlanFiles<'_>) -> Result<Answer, Stop>
    ensures course { Follows (steps_of (seen S.files S.faults shelf.old shelf.new) (plan (names_in files.entry))) result }
    ensures files { S.files shelf.new ≡ S.files shelf.old }
    ensures later { S.faults shelf.old ≤ S.faults shelf.new }
{
    let PlanFiles {
        netlist,
        delays,
        constraints,
        policy,
        cert,
    } = files;
    plan(alloc, shelf, netlist, delays, constraints, policy, cert)
}

/// `check V SDF SDC POLICY CERT`.
fn checked<S: Shelf>(alloc: Global, shelf: &mut S, files: PlanFiles<'_>) -> Result<Answer, Stop>
    ensures course { Follows (steps_of (seen S.files S.faults shelf.old shelf.new) (check (names_in files.entry))) result }
    ensures files { S.files shelf.new ≡ S.files shelf.old }
    ensures later { S.faults shelf.old ≤ S.faults shelf.new }
{
    let PlanFiles {
        netlist,
        delays,
        constraints,
        policy,
        cert,
    } = files;
    check(alloc, shelf, netlist, delays, constraints, policy, cert)
}
