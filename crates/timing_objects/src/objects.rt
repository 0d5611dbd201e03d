ghost use Rattle.std.specs.Prelude.{◌≡◌, ◌<◌, [], ◌∷◌, map, length, IfOk};
ghost use Rattle.std.specs.List.{range_with_len};
ghost use Rattle.std.specs.Option.{option_or};
ghost use Rattle.timing_objects.specs.Objects.{a_pin, clock_named, port_named, cell_named, pin_named, bare_part, bare_named, meant};
ghost use Rattle.timing_objects.specs.PortNames.{numbers};
ghost use Rattle.timing_objects.specs.declared.things.Thing.TheVariants.{Clock as ClockThing};

use crate::clock_tables::ClockTable;
use crate::scenes::Scene;
use crate::things::{Role, Thing, Things};
use bud_base::PinId;
use bud_syntax::Object;
use std::alloc::{AllocError, Global};

fn single(alloc: Global, thing: Thing) -> Result<Things, AllocError>
    ensures { IfOk result (λ things. things ≡ thing ∷ []) }
{
    let mut things = Things::new(alloc);
    things.push(thing)?;
    Ok(things)
}

fn each_pin(alloc: Global, pins: &[PinId]) -> Result<Things, AllocError>
    ensures { IfOk result (λ things. things ≡ map a_pin (numbers pins.now)) }
{
    let mut things = Vec::new(alloc);
    for pin in pins {
        things.push(Thing::Pin(*pin))?;
    }
    Ok(Things::from_vec(things))
}

/// The clocks below this number.
fn each_clock(alloc: Global, count: u32) -> Result<Things, AllocError>
    ensures { IfOk result (λ things. things ≡ map (λ c. ClockThing c) (range_with_len 0 count)) }
{
    let mut things = Vec::new(alloc);
    for number in 0..count {
        things.push(Thing::Clock(number))?;
    }
    Ok(Things::from_vec(things))
}

fn clock_named(
    alloc: Global,
    clocks: &ClockTable,
    name: &[u8],
) -> Result<Option<Things>, AllocError>
    requires { length clocks.now < 2147483648 }
    ensures { IfOk result (λ things. things ≡ clock_named clocks.now name.now) }
{
    match clocks.called(name) {
        Some(clock) => Ok(Some(single(alloc, Thing::Clock(clock))?)),
        None => Ok(None),
    }
}

fn port_named(alloc: Global, scene: &Scene<'_>, name: &[u8]) -> Result<Option<Things>, AllocError>
    ensures { IfOk result (λ things. things ≡ port_named scene.now name.now) }
{
    match scene.port(name) {
        Some(bits) => Ok(Some(each_pin(alloc, bits)?)),
        None => Ok(None),
    }
}

fn cell_named(alloc: Global, scene: &Scene<'_>, name: &[u8]) -> Result<Option<Things>, AllocError>
    ensures { IfOk result (λ things. things ≡ cell_named scene.now name.now) }
{
    match scene.cell(name) {
        Some(place) => Ok(Some(single(alloc, Thing::Cell(place))?)),
        None => Ok(None),
    }
}

fn pin_named(alloc: Global, scene: &Scene<'_>, name: &[u8]) -> Result<Option<Things>, AllocError>
    ensures { IfOk result (λ things. things ≡ pin_named scene.now name.now) }
{
    match scene.pin(name) {
        Some(pin) => Ok(Some(single(alloc, Thing::Pin(pin))?)),
        None => Ok(None),
    }
}

/// The first of clock, port, cell and pin that a name means.
fn bare_part(
    alloc: Global,
    scene: &Scene<'_>,
    clocks: &ClockTable,
    name: &[u8],
) -> Result<Option<Things>, AllocError>
    requires { length clocks.now < 2147483648 }
    ensures { IfOk result (λ things. things ≡ bare_part scene.now clocks.now name.now) }
{
    if let Some(things) = clock_named(alloc, clocks, name)? {
        return Ok(Some(things));
    }
    if let Some(things) = port_named(alloc, scene, name)? {
        return Ok(Some(things));
    }
    if let Some(things) = cell_named(alloc, scene, name)? {
        return Ok(Some(things));
    }
    pin_named(alloc, scene, name)
}

/// The first of port and pin that a name means.
fn bare_group(alloc: Global, scene: &Scene<'_>, name: &[u8]) -> Result<Option<Things>, AllocError>
    ensures { IfOk result (λ things. things ≡ option_or (port_named scene.now name.now) (pin_named scene.now name.now)) }
{
    if let Some(things) = port_named(alloc, scene, name)? {
        return Ok(Some(things));
    }
    pin_named(alloc, scene, name)
}

/// What a bare name means where a command names objects so.
fn bare_named(
    alloc: Global,
    scene: &Scene<'_>,
    role: Role,
    clocks: &ClockTable,
    name: &[u8],
) -> Result<Option<Things>, AllocError>
    requires { length clocks.now < 2147483648 }
    ensures { IfOk result (λ things. things ≡ bare_named scene.now role clocks.now name.now) }
{
    match role {
        Role::Source => port_named(alloc, scene, name),
        Role::Input => port_named(alloc, scene, name),
        Role::Output => port_named(alloc, scene, name),
        Role::Start => bare_part(alloc, scene, clocks, name),
        Role::End => bare_part(alloc, scene, clocks, name),
        Role::Through => bare_group(alloc, scene, name),
    }
}

/// What an object stands for.
pub fn meant(
    alloc: Global,
    scene: &Scene<'_>,
    role: Role,
    clocks: &ClockTable,
    object: &Object,
) -> Result<Option<Things>, AllocError>
    requires { length clocks.now < 2147483648 }
    ensures { IfOk result (λ things. things ≡ meant scene.now role clocks.now object.now) }
{
    match object {
        Object::Ports(name) => port_named(alloc, scene, name.as_slice()),
        Object::Pins(name) => pin_named(alloc, scene, name.as_slice()),
        Object::Cells(name) => cell_named(alloc, scene, name.as_slice()),
        Object::Clocks(name) => clock_named(alloc, clocks, name.as_slice()),
        Object::Any(name) => bare_named(alloc, scene, role, clocks, name.as_slice()),
        Object::AllInputs => Ok(Some(each_pin(alloc, scene.inputs(alloc)?.as_slice())?)),
        Object::AllOutputs => Ok(Some(each_pin(alloc, scene.outputs(alloc)?.as_slice())?)),
        Object::AllClocks => Ok(Some(each_clock(alloc, clocks.as_slice().len() as u32)?)),
    }
}
