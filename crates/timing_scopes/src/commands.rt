ghost use Rattle.std.specs.Prelude.{◌≡◌, ◌<◌, ◌≤◌, ◌+◌, length, All, OnOk, IfOk};
ghost use Rattle.bud_syntax.specs.Ranges.{IsReadTime, IsReadCommand};
ghost use Rattle.timing_objects.specs.Answers.{Gives};
ghost use Rattle.timing_scopes.specs.Changing.{Changes};
ghost use Rattle.timing_scopes.specs.Resolving.{new_delays, with_clock, with_input, with_output, with_exception, with_command, resolved};

use crate::clocks::{clock_of, new_clock, pins_named};
use crate::delays::{delayed, unchanged};
use crate::exceptions::new_exception;
use crate::scopes::{Given, Paths, PinDelays, Scope, Wave};
use bud_design::{ExceptionKind, Exceptions, NumberedCommand};
use bud_syntax::{Object, SdcCommand};
use std::alloc::Global;
use std::mem;
use timing_objects::{ClockTable, ResolveFault, Role, Scene};

/// Adds a clock.
fn add_clock(
    alloc: Global,
    scene: &Scene<'_>,
    scope: &mut Scope,
    name: &[u8],
    wave: Wave,
    sources: &[Object],
) -> Result<(), ResolveFault>
    requires clocks { length scope.old.clocks < 2147483648 }
    requires period { IsReadTime wave.period }
    requires rise { IsReadTime wave.rise }
    requires fall { IsReadTime wave.fall }
    ensures answer { Changes (with_clock scene.now scope.old name.now wave.period wave.rise wave.fall sources.now) scope.new result }
    ensures clocks { OnOk result (length scope.new.clocks ≤ length scope.old.clocks + 1) }
{
    let clock = new_clock(alloc, scene, &scope.clocks, name, wave, sources)?;
    let clocks = mem::replace(&mut scope.clocks, ClockTable::new(alloc));
    let Ok(clocks) = clocks.with(alloc, clock) else {
        return Err(ResolveFault::NoMemory);
    };
    scope.clocks = clocks;
    Ok(())
}

/// The delays at ports after a command: its clock is judged first, then its ports.
fn new_delays(
    alloc: Global,
    scene: &Scene<'_>,
    role: Role,
    clocks: &ClockTable,
    delays: &PinDelays,
    given: Given<'_>,
) -> Result<PinDelays, ResolveFault>
    requires { length clocks.now < 2147483648 }
    ensures { Gives result (new_delays scene.now role clocks.now delays.now given.entry.amount given.entry.clock.now given.entry.edge given.entry.setup given.entry.add given.entry.ports.now) }
{
    let clock = clock_of(alloc, clocks, given.clock.as_slice())?;
    let pins = pins_named(alloc, scene, role, clocks, given.ports.as_slice())?;
    let made = if given.setup {
        delayed(
            given.add,
            pins.as_slice(),
            clock,
            given.edge,
            given.amount,
            delays,
        )
    } else {
        unchanged(delays)
    };
    match made {
        Ok(made) => Ok(made),
        Err(_) => Err(ResolveFault::NoMemory),
    }
}

fn add_input(
    alloc: Global,
    scene: &Scene<'_>,
    scope: &mut Scope,
    given: Given<'_>,
) -> Result<(), ResolveFault>
    requires { length scope.old.clocks < 2147483648 }
    ensures answer { Changes (with_input scene.now scope.old given.entry.amount given.entry.clock.now given.entry.edge given.entry.setup given.entry.add given.entry.ports.now) scope.new result }
    ensures clocks { OnOk result (length scope.new.clocks ≤ length scope.old.clocks + 1) }
{
    let inputs = new_delays(
        alloc,
        scene,
        Role::Input,
        &scope.clocks,
        &scope.inputs,
        given,
    )?;
    scope.inputs = inputs;
    Ok(())
}

fn add_output(
    alloc: Global,
    scene: &Scene<'_>,
    scope: &mut Scope,
    given: Given<'_>,
) -> Result<(), ResolveFault>
    requires { length scope.old.clocks < 2147483648 }
    ensures answer { Changes (with_output scene.now scope.old given.entry.amount given.entry.clock.now given.entry.edge given.entry.setup given.entry.add given.entry.ports.now) scope.new result }
    ensures clocks { OnOk result (length scope.new.clocks ≤ length scope.old.clocks + 1) }
{
    let outputs = new_delays(
        alloc,
        scene,
        Role::Output,
        &scope.clocks,
        &scope.outputs,
        given,
    )?;
    scope.outputs = outputs;
    Ok(())
}

/// Adds an exception; one of hold checks alone has its names resolved and no effect.
fn add_exception(
    alloc: Global,
    scene: &Scene<'_>,
    scope: &mut Scope,
    setup: bool,
    number: u32,
    kind: ExceptionKind,
    paths: Paths<'_>,
) -> Result<(), ResolveFault>
    requires { length scope.old.clocks < 2147483648 }
    ensures answer { Changes (with_exception scene.now scope.old setup number kind paths.entry.from.now paths.entry.through.now paths.entry.to.now) scope.new result }
    ensures clocks { OnOk result (length scope.new.clocks ≤ length scope.old.clocks + 1) }
{
    let exception = new_exception(alloc, scene, &scope.clocks, number, kind, paths)?;
    if !setup {
        return Ok(());
    }
    match scope.exceptions.push(exception) {
        Ok(()) => Ok(()),
        Err(_) => Err(ResolveFault::NoMemory),
    }
}

/// One command more.
fn add_command(
    alloc: Global,
    scene: &Scene<'_>,
    scope: &mut Scope,
    command: &NumberedCommand,
) -> Result<(), ResolveFault>
    requires clocks { length scope.old.clocks < 2147483648 }
    requires read { IsReadCommand command.now.command }
    ensures answer { Changes (with_command scene.now scope.old command.now.number command.now.command) scope.new result }
    ensures clocks { OnOk result (length scope.new.clocks ≤ length scope.old.clocks + 1) }
{
    let number = command.number;
    match &command.command {
        SdcCommand::Clock {
            name,
            period,
            rise,
            fall,
            sources,
        } => {
            let wave = Wave {
                period: *period,
                rise: *rise,
                fall: *fall,
            };
            add_clock(
                alloc,
                scene,
                scope,
                name.as_slice(),
                wave,
                sources.as_slice(),
            )
        }
        SdcCommand::InputDelay {
            amount,
            clock,
            edge,
            setup,
            add,
            ports,
        } => {
            let given = Given {
                amount: *amount,
                clock,
                edge: *edge,
                setup: *setup,
                add: *add,
                ports,
            };
            add_input(alloc, scene, scope, given)
        }
        SdcCommand::OutputDelay {
            amount,
            clock,
            edge,
            setup,
            add,
            ports,
        } => {
            let given = Given {
                amount: *amount,
                clock,
                edge: *edge,
                setup: *setup,
                add: *add,
                ports,
            };
            add_output(alloc, scene, scope, given)
        }
        SdcCommand::FalsePath {
            setup,
            from,
            through,
            to,
        } => {
            add_exception(
                alloc,
                scene,
                scope,
                *setup,
                number,
                ExceptionKind::FalsePath,
                Paths { from, through, to },
            )
        }
        SdcCommand::Multicycle {
            count,
            setup,
            by_launch,
            from,
            through,
            to,
        } => {
            add_exception(
                alloc,
                scene,
                scope,
                *setup,
                number,
                ExceptionKind::Multicycle(*count, *by_launch),
                Paths { from, through, to },
            )
        }
        SdcCommand::MaxDelay {
            amount,
            from,
            through,
            to,
        } => {
            add_exception(
                alloc,
                scene,
                scope,
                true,
                number,
                ExceptionKind::MaxDelay(*amount),
                Paths { from, through, to },
            )
        }
    }
}

/// What the commands say, in their order, or the first refusal of the first command that has one.
pub fn scope_of(
    alloc: Global,
    scene: &Scene<'_>,
    commands: &[NumberedCommand],
) -> Result<Scope, ResolveFault>
    requires few { length commands.now < 2147483648 }
    requires read { All (λ c. IsReadCommand c.command) commands.now }
    ensures answer { Gives result (resolved scene.now commands.now) }
    ensures clocks { IfOk result (λ scope. length scope.clocks ≤ length commands.now) }
{
    let mut scope = Scope {
        clocks: ClockTable::new(alloc),
        inputs: PinDelays::new(alloc),
        outputs: PinDelays::new(alloc),
        exceptions: Exceptions::new(alloc),
    };
    for command in commands {
        add_command(alloc, scene, &mut scope, command)?;
    }
    Ok(scope)
}
