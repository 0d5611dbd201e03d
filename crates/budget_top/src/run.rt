ghost use Rattle.std.specs.Prelude.{◌≡◌, ◌≤◌, map, string_bytes};
ghost use Rattle.budget_report.specs.declared.statuses.Status.{Status};
ghost use Rattle.budget_report.specs.declared.statuses.Status.TheVariants.{Done};
ghost use Rattle.budget_steps.specs.Inputs.{seen};
ghost use Rattle.budget_top.specs.Jobs.{course, output};
ghost use Rattle.budget_steps.specs.Steps.{Follows};
ghost use Rattle.budget_top.specs.BestBudgets.{HasBest};
ghost use Rattle.budget_top.specs.Words.{job_of};
ghost use Rattle.budget_top.specs.Runs.{IsRun, HasCauses, CallsFor, HasBudgets, IsCalled, KeepsOthers, LeavesFiles};

use crate::finish::finish;
use crate::jobs::answer;
use crate::words::asked_job;
use bud_shelf::{Shelf, Sink};
use budget_report::{Cause, Scene};
use budget_steps::{Answer, Stop, refused};
use std::alloc::Global;

/// Does the job that the words behind the program's name ask for, and answers the status, from 0 to 8.
///
/// All that is printed goes to the sink in one piece at the end. The jobs, the statuses and the printed lines stand in
/// `docs/formats.md`.
pub fn run_budget<S: Shelf, K: Sink>(
    alloc: Global,
    words: &[String],
    shelf: &mut S,
    out: &mut K,
) -> u8
    // The whole run: how the job ends, what it writes and prints, and what the sink makes of that.
    ensures run { IsRun (job_of (map string_bytes words.now)) (seen S.files S.faults shelf.old shelf.new) (seen K.taken K.faults out.old out.new) result }
    // No file changes but the one that the job writes.
    ensures files { KeepsOthers (output (job_of (map string_bytes words.now))) (S.files shelf.old) (S.files shelf.new) }

    // Nor does that one, where the job isn't done, no fault came and memory wasn't wanting.
    ensures unchanged { LeavesFiles result → S.files shelf.new ≡ S.files shelf.old }

    // When each status comes.
    ensures causes { HasCauses (job_of (map string_bytes words.now)) (seen S.files S.faults shelf.old shelf.new) (seen K.taken K.faults out.old out.new) result }

    // A shelf that tells its files calls for one status, and no other comes unless memory is wanting or a count rises.
    ensures exact { (status : Status) → CallsFor (job_of (map string_bytes words.now)) (S.files shelf.old) status → IsCalled (seen S.files S.faults shelf.old shelf.new) (seen K.taken K.faults out.old out.new) status result }

    // Wherever the problem or the design is accepted and no path is violated, best budgets are found.
    ensures budgets { HasBudgets (job_of (map string_bytes words.now)) (S.files shelf.old) → IsCalled (seen S.files S.faults shelf.old shelf.new) (seen K.taken K.faults out.old out.new) Done result }

    // And where `plan` or `check` is done, the last file holds a certificate of best budgets for the design that was read.
    ensures best { result ≡ 0 → HasBest (job_of (map string_bytes words.now)) (seen S.files S.faults shelf.old shelf.new) }
{
    run(alloc, words, shelf, out)
}

/// Does the job and finishes it.
fn run<S: Shelf, K: Sink>(alloc: Global, words: &[String], shelf: &mut S, out: &mut K) -> u8
    ensures run { IsRun (job_of (map string_bytes words.now)) (seen S.files S.faults shelf.old shelf.new) (seen K.taken K.faults out.old out.new) result }
{
    let ended = ended(alloc, words, shelf);
    finish(alloc, shelf, out, ended)
}

/// Does the job, where the words fit one.
fn ended<S: Shelf>(alloc: Global, words: &[String], shelf: &mut S) -> Result<Answer, Stop>
    ensures course { Follows (course (seen S.files S.faults shelf.old shelf.new) (job_of (map string_bytes words.now))) result }
    ensures files { S.files shelf.new ≡ S.files shelf.old }
    ensures later { S.faults shelf.old ≤ S.faults shelf.new }
{
    match asked_job(words) {
        None => Err(refused(alloc, &Cause::Words, Scene::Bare)),
        Some(job) => answer(alloc, shelf, job),
    }
}
