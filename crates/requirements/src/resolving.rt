ghost use Rattle.std.specs.Prelude.{◌<◌, length, All, AllPairs, IfOk};
ghost use Rattle.bud_syntax.specs.Ranges.{IsReadCommand};
ghost use Rattle.bud_design.specs.ConstraintRules.{AreSoundConstraints};
ghost use Rattle.bud_design.specs.TimingRules.{IsSoundTiming};
ghost use Rattle.flat_design.specs.Flats.{IsFlat};
ghost use Rattle.requirements.specs.Constraining.{IsResolveAnswer};
ghost use Rattle.requirements.specs.Gathered.{IsGathered};
ghost use Rattle.requirements.specs.LeafTimings.{StandsInLeaves};
ghost use Rattle.requirements.specs.SoundScopes.{AreSoundClocks};

use crate::gathering::{captures, launches, unclocked};
use bud_design::{Constraints, NumberedCommand, Timing};
use clock_reach::reaching_clocks;
use flat_design::Flat;
use std::alloc::{AllocError, Global};
use timing_objects::{ResolveFault, Scene};
use timing_scopes::{Scope, scope_of};

/// What every flat design keeps.
fn keep(flat: &Flat)
    ensures { IsFlat flat.now }
{
    let _pins = flat.pins();
}

/// The constraints of a scope: its clocks and exceptions, and the launches and captures.
fn gathered(
    alloc: Global,
    flat: &Flat,
    timing: &Timing,
    scope: Scope,
) -> Result<Constraints, AllocError>
    requires timing { IsSoundTiming flat.now timing.now }
    requires few { length scope.clocks < 2147483648 }
    requires clocks { AreSoundClocks (record { design = flat.now; root = 0; timing = timing.now }) scope.clocks }
    ensures { IfOk result (IsGathered flat.now timing.now scope) }
{
    keep(flat);
    let Scope {
        clocks,
        inputs,
        outputs,
        exceptions,
    } = scope;
    let edges = timing.edges.as_slice();
    let reached = reaching_clocks(alloc, flat, clocks.as_slice())?;
    let launches = launches(alloc, inputs.as_slice(), edges, reached.as_slice())?;
    let captures = captures(
        alloc,
        outputs.as_slice(),
        timing.checks.as_slice(),
        reached.as_slice(),
    )?;
    let unclocked = unclocked(alloc, edges, reached.as_slice())?;
    Ok(Constraints {
        clocks: clocks.into_clocks(),
        launches,
        captures,
        exceptions,
        unclocked,
    })
}

/// The constraints that timing commands give a flat design, or the first refusal of the first command that has one.
pub fn resolve(
    alloc: Global,
    flat: &Flat,
    timing: &Timing,
    commands: &[NumberedCommand],
) -> Result<Constraints, ResolveFault>
    requires timing { IsSoundTiming flat.now timing.now }
    requires leaves { StandsInLeaves flat.now timing.now }
    requires few { length commands.now < 2147483648 }
    requires read { All (λ c. IsReadCommand c.command) commands.now }
    requires numbers { AllPairs (λ c d. c.number < d.number) commands.now }
    ensures answer { IsResolveAnswer (record { design = flat.now; root = 0; timing = timing.now }) commands.now result }
    ensures sound { IfOk result (AreSoundConstraints (length flat.now.pins)) }
{
    keep(flat);
    let Ok(scene) = Scene::new(alloc, flat, timing) else {
        return Err(ResolveFault::NoMemory);
    };
    let scope = scope_of(alloc, &scene, commands)?;
    match gathered(alloc, flat, timing, scope) {
        Ok(all) => Ok(all),
        Err(_) => Err(ResolveFault::NoMemory),
    }
}
