//! A design laid out under a policy.
ghost use Rattle.std.specs.Prelude.{◌≡◌, ◌≤◌, All, IfOk, length};
ghost use Rattle.bud_design.proofs.NameLaws.{IsShort};
ghost use Rattle.bud_design.specs.Correspondences.{Correspond};
ghost use Rattle.bud_design.specs.TimingRules.{IsSoundLayered};
ghost use Rattle.budget_steps.specs.Inputs.{seen};
ghost use Rattle.budget_steps.specs.Steps.{Follows};
ghost use Rattle.budget_designs.specs.DesignFiles.{AreDesignFiles};
ghost use Rattle.budget_designs.specs.Layerings.{FollowsAs};
ghost use Rattle.budget_designs.specs.TimedDesigns.{IsSoundTimed, timed_of, whole};
ghost use Rattle.budget_plans.specs.FileNames.{HaveNames, HaveShortBits};
ghost use Rattle.budget_plans.specs.Layouts.{IsLaid, laid_of, laid_out, layered_by, layout};
ghost use Rattle.design_layers.specs.Views.{HasSlackOf};
ghost use Rattle.policy_lines.specs.Shares.{IsSoundLine};

use crate::files::PolicyText;
use bud_design::{Layered, Pin, Policy};
use bud_shelf::Shelf;
use budget_designs::{DesignFiles, TimedDesign, load_design, timed_design};
use budget_report::{Cause, Scene};
use budget_steps::{Stop, load, refused_by};
use design_layers::layer;
use std::alloc::Global;

/// A design laid out under a policy: with its delays, arcs and constraints, and its layering.
#[derive(Debug, Drop)]
pub struct Layout {
    pub design: TimedDesign,
    pub policy: Policy,
    pub layered: Layered,
}

/// Reads the files of a design and a policy, in this order, and lays the design out.
pub fn load_layout<S: Shelf>(
    alloc: Global,
    shelf: &mut S,
    netlist: &str,
    delays: &str,
    constraints: &str,
    policy: &str,
) -> Result<Layout, Stop>
    ensures course { FollowsAs laid_of (layout (seen S.files S.faults shelf.old shelf.new) netlist.now delays.now constraints.now policy.now) result }
    ensures laid { IfOk result IsLaid }
    ensures files { S.files shelf.new ≡ S.files shelf.old }
    ensures later { S.faults shelf.old ≤ S.faults shelf.new }
{
    let files = load_design(alloc, shelf, netlist, delays, constraints)?;
    let policy = load::<PolicyText, S>(alloc, shelf, policy)?;
    laid_out(alloc, files, policy)
}

/// Lays a design out under a policy.
pub fn laid_out(alloc: Global, files: DesignFiles, policy: Policy) -> Result<Layout, Stop>
    requires files { AreDesignFiles files }
    requires names { HaveNames files }
    requires lines { All IsSoundLine policy.lines }
    ensures course { FollowsAs laid_of (laid_out files policy) result }
    ensures laid { IfOk result IsLaid }
{
    let design = timed_design(alloc, files)?;
    short_bits(design.flat.pins());
    let layered = layered_by(alloc, &design, &policy)?;
    Ok(Layout {
        design,
        policy,
        layered,
    })
}

/// The layering of a design under a policy.
fn layered_by(alloc: Global, design: &TimedDesign, policy: &Policy) -> Result<Layered, Stop>
    requires design { IsSoundTimed design.now }
    requires lines { All IsSoundLine policy.now.lines }
    ensures course { Follows (layered_by (whole (timed_of design.now)) policy.now) result }
    ensures sound { IfOk result (IsSoundLayered (length design.now.flat.pins) (length design.now.graph.arcs)) }
    ensures paths { IfOk result (Correspond (whole (timed_of design.now))) }
    ensures slack { IfOk result (λ layered. HasSlackOf (whole (timed_of design.now)) layered.problem) }
{
    match layer(
        alloc,
        &design.flat,
        &design.graph,
        &design.constraints,
        policy,
    ) {
        Ok(layered) => Ok(layered),
        Err(fault) => Err(refused_by(alloc, Cause::Layer(fault), Scene::Bare)),
    }
}

/// The numbers of bits are short.
fn short_bits(pins: &[Pin])
    ensures { HaveShortBits pins.now }
{
    for number in 0..pins.len() {
        short_bit(pins[number].bit);
    }
}

fn short_bit(bit: Option<u32>)
    ensures { IsShort bit }
{
    match bit {
        Some(_) => {}
        None => {}
    }
}
