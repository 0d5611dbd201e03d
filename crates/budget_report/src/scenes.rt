ghost use Rattle.std.specs.Prelude.{◌≡◌};
ghost use Rattle.budget_report.specs.Subjects.{subject_of, problem_of, no_problem};

use bud_base::Problem;
use bud_design::{Constraints, Layered};
use flat_design::Flat;

/// What a cause or a violated path speaks of, beside a file.
///
/// A cause of a raw problem or its certificate needs Raw, a cycle of arcs needs Pins, and a violated path Raw or Design.
#[derive(Clone, Copy, Debug)]
pub enum Scene<'a> {
    Bare,
    Raw(&'a Problem),
    Pins(&'a Flat),
    /// The layering, its design and its constraints.
    Design(&'a Layered, &'a Flat, &'a Constraints),
}

/// The problem that is spoken of, or else the one without nodes.
pub fn problem_in<'a>(scene: Scene<'a>, nothing: &'a Problem) -> &'a Problem
    requires { nothing.now ≡ no_problem }
    ensures { result.now ≡ problem_of (subject_of scene.entry) }
{
    match scene {
        Scene::Raw(problem) => problem,
        Scene::Design(layered, _, _) => &layered.problem,
        Scene::Bare | Scene::Pins(_) => nothing,
    }
}
