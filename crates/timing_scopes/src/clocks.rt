ghost use Rattle.std.specs.Prelude.{◌≡◌, ◌<◌, length, IfOk};
ghost use Rattle.bud_syntax.specs.Ranges.{IsReadTime};
ghost use Rattle.timing_objects.specs.Answers.{Gives, IsFault};
ghost use Rattle.timing_objects.specs.declared.faults.ResolveFault.TheVariants.{UnknownClock, ClockTwice, BadWaveform};
ghost use Rattle.timing_scopes.specs.Resolving.{clock_of, pins_named, is_waveform, new_clock};

use crate::scopes::Wave;
use bud_base::Text;
use bud_design::{Clock, PinList};
use bud_syntax::Object;
use std::alloc::{AllocError, Global};
use timing_objects::{ClockTable, ResolveFault, Role, Scene, all_things, pins_of};

/// The pins that objects give a command that names them so, up to the first refusal.
pub fn pins_named(
    alloc: Global,
    scene: &Scene<'_>,
    role: Role,
    clocks: &ClockTable,
    objects: &[Object],
) -> Result<PinList, ResolveFault>
    requires { length clocks.now < 2147483648 }
    ensures { Gives result (pins_named scene.now role clocks.now objects.now) }
{
    let things = all_things(alloc, scene, role, clocks, objects)?;
    match pins_of(alloc, scene, role, things.as_slice()) {
        Ok(pins) => Ok(pins),
        Err(_) => Err(ResolveFault::NoMemory),
    }
}

fn copied(alloc: Global, text: &[u8]) -> Result<Text, AllocError>
    ensures { IfOk result (λ copy. copy ≡ text.now) }
{
    Text::from_slice(alloc, text)
}

fn unknown_clock(alloc: Global, name: &[u8]) -> ResolveFault
    ensures { IsFault result (UnknownClock name.now) }
{
    match copied(alloc, name) {
        Ok(name) => ResolveFault::UnknownClock(name),
        Err(_) => ResolveFault::NoMemory,
    }
}

fn clock_twice(alloc: Global, name: &[u8]) -> ResolveFault
    ensures { IsFault result (ClockTwice name.now) }
{
    match copied(alloc, name) {
        Ok(name) => ResolveFault::ClockTwice(name),
        Err(_) => ResolveFault::NoMemory,
    }
}

fn bad_waveform(alloc: Global, name: &[u8]) -> ResolveFault
    ensures { IsFault result (BadWaveform name.now) }
{
    match copied(alloc, name) {
        Ok(name) => ResolveFault::BadWaveform(name),
        Err(_) => ResolveFault::NoMemory,
    }
}

/// The number of the clock of this name.
pub fn clock_of(alloc: Global, clocks: &ClockTable, name: &[u8]) -> Result<u32, ResolveFault>
    requires { length clocks.now < 2147483648 }
    ensures { Gives result (clock_of clocks.now name.now) }
{
    match clocks.called(name) {
        Some(clock) => Ok(clock),
        None => Err(unknown_clock(alloc, name)),
    }
}

/// Whether the edges make a waveform: a fall behind each rise, and a rise behind each fall.
fn is_waveform(period: i64, rise: i64, fall: i64) -> bool
    requires period { IsReadTime period }
    requires rise { IsReadTime rise }
    requires fall { IsReadTime fall }
    ensures { result ≡ is_waveform period rise fall }
{
    period >= 2 && (rise < fall && fall < rise + period)
}

/// A clock: its name is judged first, then its sources, then its waveform.
pub fn new_clock(
    alloc: Global,
    scene: &Scene<'_>,
    clocks: &ClockTable,
    name: &[u8],
    wave: Wave,
    sources: &[Object],
) -> Result<Clock, ResolveFault>
    requires clocks { length clocks.now < 2147483648 }
    requires period { IsReadTime wave.period }
    requires rise { IsReadTime wave.rise }
    requires fall { IsReadTime wave.fall }
    ensures { Gives result (new_clock scene.now clocks.now name.now wave.period wave.rise wave.fall sources.now) }
{
    if clocks.called(name).is_some() {
        return Err(clock_twice(alloc, name));
    }
    let sources = pins_named(alloc, scene, Role::Source, clocks, sources)?;
    if !is_waveform(wave.period, wave.rise, wave.fall) {
        return Err(bad_waveform(alloc, name));
    }
    let Ok(name) = copied(alloc, name) else {
        return Err(ResolveFault::NoMemory);
    };
    Ok(Clock {
        name,
        period: wave.period,
        rise: wave.rise,
        fall: wave.fall,
        sources,
    })
}
