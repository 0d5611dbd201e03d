//! The steps on a design, from its modules to its constraints.
ghost use Rattle.std.specs.Prelude.{◌≡◌, ◌<◌, suc, length, All, IfOk};
ghost use Rattle.std.specs.Option.{option_map};
ghost use Rattle.bud_design.specs.ConstraintRules.{AreSoundConstraints};
ghost use Rattle.bud_design.specs.TimingRules.{IsSoundGraph, IsSoundTiming, StartsInLeaf};
ghost use Rattle.flat_design.specs.Flats.{IsFlat};
ghost use Rattle.requirements.specs.LeafTimings.{StandsInLeaves};
ghost use Rattle.budget_steps.specs.Steps.{Follows};
ghost use Rattle.budget_designs.specs.Designs.{elaborated, timed, joined, constrained, numbered};
ghost use Rattle.budget_designs.specs.Inputs.{IsNetlist, IsDelayFile};
ghost use Rattle.budget_designs.specs.Layerings.{FollowsAs, AreResolvable};
ghost use Rattle.bud_syntax.specs.Ranges.{IsReadCommand};

use bud_base::Text;
use bud_design::{Constraints, Numbered, NumberedCommand, Timing};
use bud_syntax::{Module, SdcCommands, SdfFile};
use budget_report::{Cause, Scene};
use budget_steps::{Stop, refused_by};
use delay_bind::bind;
use flat_design::Flat;
use hierarchy::elaborate;
use requirements::resolve;
use std::alloc::{AllocError, Global};
use timing_graph::{Graph, arcs};

/// The name of the top, where one is given.
pub fn top_name(design: &Option<Text>) -> Option<&[u8]>
    ensures { option_map (λ name. name.now) result ≡ design.now }
{
    match design {
        Some(name) => Some(name.as_slice()),
        None => None,
    }
}

/// What every flat design keeps.
pub fn keep(flat: &Flat)
    ensures { IsFlat flat.now }
{
    let _pins = flat.pins();
}

/// The flat design of a netlist below the top of this name, or below the one module that none instantiates.
pub fn elaborated(alloc: Global, modules: &[Module], top: Option<&[u8]>) -> Result<Flat, Stop>
    requires { IsNetlist modules.now }
    ensures { Follows (elaborated modules.now (option_map (λ name. name.now) top.entry)) result }
{
    match elaborate(alloc, modules, top) {
        Ok(flat) => {
            keep(&flat);
            Ok(flat)
        }
        Err(fault) => Err(refused_by(alloc, Cause::Elab(fault), Scene::Bare)),
    }
}

/// The delays, checks and launch edges that a delay file gives a design.
pub fn timed(alloc: Global, flat: &Flat, delays: &SdfFile) -> Result<Timing, Stop>
    requires { IsDelayFile delays.now }
    ensures course { Follows (timed flat.now delays.now.rows) result }
    ensures sound { IfOk result (IsSoundTiming flat.now) }
    ensures pairs { IfOk result (λ timing. All (StartsInLeaf flat.now) timing.pairs) }
    ensures leaves { IfOk result (StandsInLeaves flat.now) }
{
    match bind(alloc, flat, delays) {
        Ok(timing) => Ok(timing),
        Err(fault) => Err(refused_by(alloc, Cause::Bind(fault), Scene::Bare)),
    }
}

/// The arcs of a design, with an order of its pins.
pub fn joined(alloc: Global, flat: &Flat, timing: &Timing) -> Result<Graph, Stop>
    requires timing { IsSoundTiming flat.now timing.now }
    requires leaves { All (StartsInLeaf flat.now) timing.now.pairs }
    ensures course { FollowsAs (λ graph. graph.arcs) (joined flat.now timing.now) result }
    ensures sound { IfOk result (IsSoundGraph flat.now) }
{
    keep(flat);
    match arcs(alloc, flat, timing) {
        Ok(graph) => Ok(graph),
        Err(fault) => Err(refused_by(alloc, Cause::Graph(fault), Scene::Pins(flat))),
    }
}

/// The constraints that timing commands give a design.
pub fn constrained(
    alloc: Global,
    flat: &Flat,
    timing: &Timing,
    commands: SdcCommands,
) -> Result<Constraints, Stop>
    requires timing { IsSoundTiming flat.now timing.now }
    requires leaves { StandsInLeaves flat.now timing.now }
    requires read { All IsReadCommand commands }
    ensures course { Follows (constrained flat.now timing.now commands) result }
    ensures sound { IfOk result (AreSoundConstraints (length flat.now.pins)) }
{
    let list = numbered(alloc, commands)?;
    match resolve(alloc, flat, timing, list.as_slice()) {
        Ok(all) => Ok(all),
        Err(fault) => Err(refused_by(alloc, Cause::Resolve(fault), Scene::Bare)),
    }
}

/// The commands, numbered from 1.
fn numbered(alloc: Global, commands: SdcCommands) -> Result<Numbered, AllocError>
    requires { All IsReadCommand commands }
    ensures numbered { IfOk result (λ list. list ≡ numbered commands) }
    ensures resolvable { IfOk result AreResolvable }
{
    numbers(alloc, commands)
}

#[tactic(auto, using(crate::proofs::Numbers::numbers_on))]
fn numbers(alloc: Global, commands: SdcCommands) -> Result<Numbered, AllocError>
    ensures numbered { IfOk result (λ list. list ≡ numbered commands) }
    ensures few { IfOk result (λ list. length list < 2147483648) }
{
    let mut list = Numbered::new(alloc);
    for command in commands.into_vec() {
        let number = number_behind(list.len())?;
        list.push(NumberedCommand { number, command })?;
    }
    Ok(list)
}

/// The number of the command behind so many.
fn number_behind(count: usize) -> Result<u32, AllocError>
    ensures number { IfOk result (λ number. number ≡ suc count) }
    ensures few { IfOk result (λ number. number < 2147483648) }
{
    if count >= 2147483647 {
        return Err(AllocError);
    }
    Ok(count as u32 + 1)
}
