//! A flat design with its delays, its arcs and its constraints.
ghost use Rattle.std.specs.Prelude.{All, IfOk};
ghost use Rattle.bud_syntax.specs.Ranges.{IsReadCommand};
ghost use Rattle.budget_designs.specs.DesignFiles.{AreDesignFiles};
ghost use Rattle.budget_designs.specs.Inputs.{IsDelayFile};
ghost use Rattle.budget_designs.specs.Layerings.{FollowsAs};
ghost use Rattle.budget_designs.specs.TimedDesigns.{timed_of, timed_below, timed_design, IsSoundTimed};

use crate::design_files::DesignFiles;
use crate::designs::{constrained, elaborated, joined, keep, timed, top_name};
use bud_design::{Constraints, Timing};
use bud_syntax::{SdcCommands, SdcFile, SdfFile};
use budget_steps::Stop;
use flat_design::Flat;
use std::alloc::Global;
use timing_graph::Graph;

/// A flat design with its delays, its arcs and its constraints.
#[derive(Debug, Drop)]
pub struct TimedDesign {
    pub flat: Flat,
    pub timing: Timing,
    pub graph: Graph,
    pub constraints: Constraints,
}

/// What the files of a design come to: elaborates its netlist, binds its delays, finds its arcs and resolves its
/// constraints.
pub fn timed_design(alloc: Global, files: DesignFiles) -> Result<TimedDesign, Stop>
    requires { AreDesignFiles files }
    ensures course { FollowsAs timed_of (timed_design files) result }
    ensures sound { IfOk result IsSoundTimed }
{
    let DesignFiles {
        netlist,
        delays,
        constraints,
    } = files;
    let SdcFile { design, commands } = constraints;
    let flat = elaborated(alloc, netlist.as_slice(), top_name(&design))?;
    timed_below(alloc, flat, &delays, commands)
}

/// What delays and timing commands give a flat design.
fn timed_below(
    alloc: Global,
    flat: Flat,
    delays: &SdfFile,
    commands: SdcCommands,
) -> Result<TimedDesign, Stop>
    requires delays { IsDelayFile delays.now }
    requires commands { All IsReadCommand commands }
    ensures course { FollowsAs timed_of (timed_below flat delays.now.rows commands) result }
    ensures sound { IfOk result IsSoundTimed }
{
    keep(&flat);
    let timing = timed(alloc, &flat, delays)?;
    let graph = joined(alloc, &flat, &timing)?;
    let constraints = constrained(alloc, &flat, &timing, commands)?;
    Ok(TimedDesign {
        flat,
        timing,
        graph,
        constraints,
    })
}
