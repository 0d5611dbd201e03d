//! The jobs on designs, each as its steps in order.
ghost use Rattle.std.specs.Prelude.{◌≡◌, ◌≤◌};
ghost use Rattle.budget_steps.specs.Inputs.{seen};
ghost use Rattle.budget_steps.specs.Steps.{Follows};
ghost use Rattle.budget_designs.specs.DesignFiles.{AreDesignFiles};
ghost use Rattle.budget_designs.specs.Jobs.{least_in, least_job};

use crate::design_files::{DesignFiles, load_design};
use crate::slacks::least_of;
use crate::timed_designs::timed_design;
use bud_shelf::Shelf;
use budget_steps::{Answer, Stop};
use std::alloc::Global;

/// `least V SDF SDC`: the least slack of a design over all its constrained paths, or a worst violated path.
pub fn least<S: Shelf>(
    alloc: Global,
    shelf: &mut S,
    netlist: &str,
    delays: &str,
    constraints: &str,
) -> Result<Answer, Stop>
    ensures course { Follows (least_job (seen S.files S.faults shelf.old shelf.new) netlist.now delays.now constraints.now) result }
    ensures files { S.files shelf.new ≡ S.files shelf.old }
    ensures later { S.faults shelf.old ≤ S.faults shelf.new }
{
    let files = load_design(alloc, shelf, netlist, delays, constraints)?;
    least_in(alloc, files)
}

/// What comes of the values of the files.
fn least_in(alloc: Global, files: DesignFiles) -> Result<Answer, Stop>
    requires { AreDesignFiles files }
    ensures { Follows (least_in files) result }
{
    let design = timed_design(alloc, files)?;
    least_of(alloc, &design.flat, &design.graph, &design.constraints)
}
