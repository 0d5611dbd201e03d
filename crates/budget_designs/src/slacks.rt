//! The least slack of a design.
ghost use Rattle.std.specs.Prelude.{◌≡◌, ◌<ℤ◌, pos, length, IfOk};
ghost use Rattle.bud_base.specs.Paths.{IsLeastSlack, IsPathOfSlack};
ghost use Rattle.budget_report.specs.Violations.{meets_text, no_paths_text};
ghost use Rattle.budget_steps.specs.Outcomes.{done};
ghost use Rattle.bud_base.specs.Soundness.{IsSound};
ghost use Rattle.bud_design.specs.ConstraintRules.{AreSoundConstraints};
ghost use Rattle.bud_design.specs.TimingRules.{IsSoundGraph};
ghost use Rattle.budget_report.specs.DesignPaths.{IsOfDesign};
ghost use Rattle.budget_steps.specs.Steps.{Follows};
ghost use Rattle.budget_designs.specs.Designs.{view_of};
ghost use Rattle.budget_designs.specs.Slacks.{least_of};
ghost use Rattle.budget_designs.specs.Layerings.{layer_measured};

use bud_base::Listed;
use bud_design::{Constraints, Layered};
use budget_report::{Cause, Scene, Status, meets_text, no_paths_text, violation_text};
use budget_steps::{Answer, Said, Stop, refused_by};
use design_layers::layer_without_policy;
use flat_design::Flat;
use least_check::{Least, LeastCheck};
use std::alloc::{AllocError, Global};
use timing_graph::Graph;

/// The least slack of a design over all its constrained paths, or a worst path where it is negative.
pub fn least_of(
    alloc: Global,
    flat: &Flat,
    graph: &Graph,
    all: &Constraints,
) -> Result<Answer, Stop>
    requires graph { IsSoundGraph flat.now graph.now }
    requires constraints { AreSoundConstraints (length flat.now.pins) all.now }
    ensures { Follows (least_of (view_of flat.now graph.now.arcs all.now)) result }
{
    match layer_without_policy(alloc, flat, graph, all) {
        Ok(layered) => measured(alloc, flat, all, &layered),
        Err(fault) => Err(refused_by(alloc, Cause::Layer(fault), Scene::Bare)),
    }
}

/// The least slack by the layering of a design.
fn measured(
    alloc: Global,
    flat: &Flat,
    all: &Constraints,
    layered: &Layered,
) -> Result<Answer, Stop>
    requires sound { IsSound layered.now.problem }
    requires drawn { IsOfDesign layered.now flat.now }
    ensures { Follows (layer_measured layered.now flat.now all.now) result }
{
    let mut check = LeastCheck::new(alloc, &layered.problem)?;
    match check.run(&layered.problem) {
        Least::NoPaths => {
            let none = unconstrained(alloc)?;
            Ok(none)
        }
        Least::Meets(slack) => {
            let good = met(alloc, slack)?;
            Ok(good)
        }
        Least::Violated(slack) => violated(alloc, flat, all, layered, &check, slack),
    }
}

/// The answer where no path is constrained.
fn unconstrained(alloc: Global) -> Result<Answer, AllocError>
    ensures { IfOk result (λ answer. answer ≡ done no_paths_text) }
{
    let text = no_paths_text(alloc)?;
    Ok(Answer::done(alloc, text))
}

/// The answer where the least slack is at least 0 ps.
fn met(alloc: Global, slack: i64) -> Result<Answer, AllocError>
    ensures { IfOk result (λ answer. answer ≡ done (meets_text slack)) }
{
    let text = meets_text(alloc, slack)?;
    Ok(Answer::done(alloc, text))
}

/// The answer where the least slack is negative: the worst path that the check keeps.
pub fn violated(
    alloc: Global,
    flat: &Flat,
    all: &Constraints,
    layered: &Layered,
    check: &LeastCheck,
    slack: i64,
) -> Result<Answer, Stop>
    requires drawn { IsOfDesign layered.now flat.now }
    requires least { IsLeastSlack layered.now.problem slack }
    requires below { slack <ℤ pos 0 }
    requires path { IsPathOfSlack layered.now.problem slack check.now.path }
    ensures { Follows (layer_measured layered.now flat.now all.now) result }
{
    let (start, end) = check.ends();
    let scene = Scene::Design(layered, flat, all);
    let text = violation_text(alloc, scene, slack, check.worst(), start, end)?;
    let said = Said {
        status: Status::Violated,
        text,
    };
    Ok(Answer {
        said,
        writes: Listed::new(alloc),
    })
}
