ghost use Rattle.std.specs.Prelude.{◌≡◌, ◌==◌, ◌&&◌, ◌<◌, length, flat_map, ◌++◌, All, IfOk, OnOk};
ghost use Rattle.std.specs.List.{list_any, list_all};
ghost use Rattle.timing_objects.specs.Answers.{Gives, IsFault, each};
ghost use Rattle.timing_objects.specs.Objects.{object_text, unknown, is_part, may_be, misfit, is_free, things_in, pins_in, clocks_in, marks_of};
ghost use Rattle.timing_objects.specs.Within.{IsPinIn};
ghost use Rattle.timing_objects.specs.declared.faults.ResolveFault.TheVariants.{ClockTwice};

use crate::clock_tables::ClockTable;
use crate::faults::ResolveFault;
use crate::objects::meant;
use crate::scenes::Scene;
use crate::things::{Role, Thing, Things};
use bud_base::{PinId, Text};
use bud_design::{ClockList, Marks, PinList};
use bud_syntax::Object;
use std::alloc::{AllocError, Global};

/// The name in an object, or the word of one that names all.
fn object_text(object: &Object) -> &[u8]
    ensures { result.now ≡ object_text object.now }
{
    match object {
        Object::Ports(name) => name.as_slice(),
        Object::Pins(name) => name.as_slice(),
        Object::Cells(name) => name.as_slice(),
        Object::Clocks(name) => name.as_slice(),
        Object::Any(name) => name.as_slice(),
        Object::AllInputs => b"all_inputs".as_slice(),
        Object::AllOutputs => b"all_outputs".as_slice(),
        Object::AllClocks => b"all_clocks".as_slice(),
    }
}

fn copied(alloc: Global, text: &[u8]) -> Result<Text, AllocError>
    ensures { IfOk result (λ copy. copy ≡ text.now) }
{
    Text::from_slice(alloc, text)
}

/// The refusal of an object that stands for nothing.
fn unknown(alloc: Global, object: &Object) -> ResolveFault
    ensures { IsFault result (unknown object.now) }
{
    let Ok(name) = copied(alloc, object_text(object)) else {
        return ResolveFault::NoMemory;
    };
    match object {
        Object::Ports(_) => ResolveFault::UnknownObject(name),
        Object::Pins(_) => ResolveFault::UnknownObject(name),
        Object::Cells(_) => ResolveFault::UnknownObject(name),
        Object::Clocks(_) => ResolveFault::UnknownClock(name),
        Object::Any(_) => ResolveFault::UnknownObject(name),
        Object::AllInputs => ResolveFault::UnknownObject(name),
        Object::AllOutputs => ResolveFault::UnknownObject(name),
        Object::AllClocks => ResolveFault::UnknownObject(name),
    }
}

/// The refusal of an object that may not be named so.
fn misfit(alloc: Global, role: Role, object: &Object) -> ResolveFault
    ensures { IsFault result (misfit role (object_text object.now)) }
{
    let Ok(name) = copied(alloc, object_text(object)) else {
        return ResolveFault::NoMemory;
    };
    match role {
        Role::Source => ResolveFault::NotASource(name),
        Role::Input => ResolveFault::NotAStart(name),
        Role::Output => ResolveFault::NotAnEnd(name),
        Role::Start => ResolveFault::NotAStart(name),
        Role::End => ResolveFault::NotAnEnd(name),
        Role::Through => ResolveFault::NotAPin(name),
    }
}

/// The refusal of an object with a source of another clock.
fn twice(alloc: Global, object: &Object) -> ResolveFault
    ensures { IsFault result (ClockTwice (object_text object.now)) }
{
    let Ok(name) = copied(alloc, object_text(object)) else {
        return ResolveFault::NoMemory;
    };
    ResolveFault::ClockTwice(name)
}

/// Whether it is a part of an exception, which may name cells and clocks.
fn is_part(role: Role) -> bool
    ensures { result ≡ is_part role }
{
    match role {
        Role::Start | Role::End => true,
        Role::Source | Role::Input | Role::Output | Role::Through => false,
    }
}

fn may_be(scene: &Scene<'_>, role: Role, thing: Thing) -> bool
    requires { IsPinIn scene.now.design thing }
    ensures { result ≡ may_be scene.now role thing }
{
    match thing {
        Thing::Pin(pin) => scene.pin_may_be(role, pin),
        Thing::Cell(place) => is_part(role) && scene.is_register(place),
        Thing::Clock(_) => is_part(role),
    }
}

fn all_may_be(scene: &Scene<'_>, role: Role, things: &[Thing]) -> bool
    requires { All (IsPinIn scene.now.design) things.now }
    ensures { result ≡ list_all (may_be scene.now role) things.now }
{
    for thing in things {
        if !may_be(scene, role, *thing) {
            return false;
        }
    }
    true
}

/// Whether no clock stands in the way of naming the thing so.
fn is_free(role: Role, clocks: &ClockTable, thing: Thing) -> bool
    ensures { result ≡ is_free role clocks.now thing }
{
    match role {
        Role::Source => match thing {
            Thing::Pin(pin) => !clocks.has_source(pin),
            Thing::Cell(_) => true,
            Thing::Clock(_) => true,
        },
        Role::Input => true,
        Role::Output => true,
        Role::Start => true,
        Role::End => true,
        Role::Through => true,
    }
}

fn all_are_free(role: Role, clocks: &ClockTable, things: &[Thing]) -> bool
    ensures { result ≡ list_all (is_free role clocks.now) things.now }
{
    for thing in things {
        if !is_free(role, clocks, *thing) {
            return false;
        }
    }
    true
}

/// The things that an object gives a command that names it so, by the clocks made so far; or the object's first refusal.
pub fn things_in(
    alloc: Global,
    scene: &Scene<'_>,
    role: Role,
    clocks: &ClockTable,
    object: &Object,
) -> Result<Things, ResolveFault>
    requires { length clocks.now < 2147483648 }
    ensures { Gives result (things_in scene.now role clocks.now object.now) }
{
    let Ok(meant) = meant(alloc, scene, role, clocks, object) else {
        return Err(ResolveFault::NoMemory);
    };
    let Some(things) = meant else {
        return Err(unknown(alloc, object));
    };
    if !all_may_be(scene, role, things.as_slice()) {
        return Err(misfit(alloc, role, object));
    }
    if !all_are_free(role, clocks, things.as_slice()) {
        return Err(twice(alloc, object));
    }
    Ok(things)
}

/// The things that objects give, one after the other, up to the first refusal.
pub fn all_things(
    alloc: Global,
    scene: &Scene<'_>,
    role: Role,
    clocks: &ClockTable,
    objects: &[Object],
) -> Result<Things, ResolveFault>
    requires { length clocks.now < 2147483648 }
    ensures { Gives result (each (things_in scene.now role clocks.now) objects.now) }
{
    let Ok(mut things) = Vec::with_capacity(alloc, objects.len()) else {
        return Err(ResolveFault::NoMemory);
    };
    for object in objects {
        let found = things_in(alloc, scene, role, clocks, object)?;
        let Ok(()) = things.extend_from_slice(found.as_slice()) else {
            return Err(ResolveFault::NoMemory);
        };
    }
    Ok(Things::from_vec(things))
}

/// Adds the pins that a thing names.
fn add_pins(
    alloc: Global,
    scene: &Scene<'_>,
    role: Role,
    thing: Thing,
    pins: &mut Vec<PinId>,
) -> Result<(), AllocError>
    ensures { OnOk result (pins.new.items ≡ pins.old.items ++ pins_in scene.now role thing) }
{
    match thing {
        Thing::Pin(pin) => {
            pins.push(pin)?;
            Ok(())
        }
        Thing::Cell(place) => {
            let own = scene.pins_of_cell(alloc, role, place)?;
            pins.extend_from_slice(own.as_slice())?;
            Ok(())
        }
        Thing::Clock(_) => Ok(()),
    }
}

/// The pins that things name.
pub fn pins_of(
    alloc: Global,
    scene: &Scene<'_>,
    role: Role,
    things: &[Thing],
) -> Result<PinList, AllocError>
    ensures { IfOk result (λ pins. pins ≡ flat_map (pins_in scene.now role) things.now) }
{
    let mut pins = Vec::with_capacity(alloc, things.len())?;
    for thing in things {
        add_pins(alloc, scene, role, *thing, &mut pins)?;
    }
    Ok(PinList::from_vec(pins))
}

fn clocks_of(alloc: Global, things: &[Thing]) -> Result<ClockList, AllocError>
    ensures { IfOk result (λ clocks. clocks ≡ flat_map clocks_in things.now) }
{
    let mut clocks = Vec::new(alloc);
    for thing in things {
        if let Thing::Clock(clock) = *thing {
            clocks.push(clock)?;
        }
    }
    Ok(ClockList::from_vec(clocks))
}

/// The pins and clocks that things name.
pub fn marks_of(
    alloc: Global,
    scene: &Scene<'_>,
    role: Role,
    things: &[Thing],
) -> Result<Marks, AllocError>
    ensures { IfOk result (λ marks. marks ≡ marks_of scene.now role things.now) }
{
    let pins = pins_of(alloc, scene, role, things)?;
    let clocks = clocks_of(alloc, things)?;
    Ok(Marks { pins, clocks })
}
