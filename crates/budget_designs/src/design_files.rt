//! The files of a design, read in order.
ghost use Rattle.std.specs.Prelude.{◌≡◌, ◌≤◌, IfOk};
ghost use Rattle.budget_steps.specs.Inputs.{seen};
ghost use Rattle.budget_steps.specs.Steps.{Follows};
ghost use Rattle.budget_designs.specs.DesignFiles.{design_files, AreDesignFiles};

use crate::files::{ConstraintText, DelayText, NetlistText};
use bud_shelf::Shelf;
use bud_syntax::{Modules, SdcFile, SdfFile};
use budget_steps::{Stop, load};
use std::alloc::Global;

/// What the files of a design read as.
#[derive(Debug, Drop)]
pub struct DesignFiles {
    pub netlist: Modules,
    pub delays: SdfFile,
    pub constraints: SdcFile,
}

/// Reads the files of a design: its netlist, its delays and its timing constraints, in this order.
pub fn load_design<S: Shelf>(
    alloc: Global,
    shelf: &mut S,
    netlist: &str,
    delays: &str,
    constraints: &str,
) -> Result<DesignFiles, Stop>
    ensures course { Follows (design_files (seen S.files S.faults shelf.old shelf.new) netlist.now delays.now constraints.now) result }
    ensures values { IfOk result AreDesignFiles }
    ensures files { S.files shelf.new ≡ S.files shelf.old }
    ensures later { S.faults shelf.old ≤ S.faults shelf.new }
{
    let netlist = load::<NetlistText, S>(alloc, shelf, netlist)?;
    let delays = load::<DelayText, S>(alloc, shelf, delays)?;
    let constraints = load::<ConstraintText, S>(alloc, shelf, constraints)?;
    Ok(DesignFiles {
        netlist,
        delays,
        constraints,
    })
}
