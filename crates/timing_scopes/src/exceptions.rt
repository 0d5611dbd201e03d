ghost use Rattle.std.specs.Prelude.{◌≡◌, ◌<◌, length, map, Some, None};
ghost use Rattle.timing_objects.specs.Answers.{Gives, each};
ghost use Rattle.timing_scopes.specs.Resolving.{part_of, group_of, new_exception};

use crate::clocks::pins_named;
use crate::scopes::Paths;
use bud_design::{Exception, ExceptionKind, Marks, PinGroups};
use bud_syntax::{Object, Objects};
use std::alloc::Global;
use timing_objects::{ClockTable, ResolveFault, Role, Scene, all_things, marks_of};

/// A from-part or a to-part.
fn part_of(
    alloc: Global,
    scene: &Scene<'_>,
    role: Role,
    clocks: &ClockTable,
    part: &Option<Objects>,
) -> Result<Option<Marks>, ResolveFault>
    requires { length clocks.now < 2147483648 }
    ensures { Gives result (part_of scene.now role clocks.now part.now) }
{
    let Some(objects) = part else {
        return Ok(None);
    };
    let things = all_things(alloc, scene, role, clocks, objects.as_slice())?;
    match marks_of(alloc, scene, role, things.as_slice()) {
        Ok(marks) => Ok(Some(marks)),
        Err(_) => Err(ResolveFault::NoMemory),
    }
}

/// The pins of each group, in the order of the groups.
fn groups_of(
    alloc: Global,
    scene: &Scene<'_>,
    clocks: &ClockTable,
    groups: &[Objects],
) -> Result<PinGroups, ResolveFault>
    requires { length clocks.now < 2147483648 }
    ensures { Gives result (each (group_of scene.now clocks.now) groups.now) }
{
    let mut found = Vec::new(alloc);
    for group in groups {
        let pins = pins_named(alloc, scene, Role::Through, clocks, group.as_slice())?;
        let Ok(()) = found.push(pins) else {
            return Err(ResolveFault::NoMemory);
        };
    }
    Ok(PinGroups::from_vec(found))
}

/// An exception: its from-part is judged first, then its groups, then its to-part.
pub fn new_exception(
    alloc: Global,
    scene: &Scene<'_>,
    clocks: &ClockTable,
    number: u32,
    kind: ExceptionKind,
    paths: Paths<'_>,
) -> Result<Exception, ResolveFault>
    requires { length clocks.now < 2147483648 }
    ensures { Gives result (new_exception scene.now clocks.now number kind paths.entry.from.now paths.entry.through.now paths.entry.to.now) }
{
    let from = part_of(alloc, scene, Role::Start, clocks, paths.from)?;
    let groups = groups_of(alloc, scene, clocks, paths.through.as_slice())?;
    let to = part_of(alloc, scene, Role::End, clocks, paths.to)?;
    Ok(Exception {
        number,
        kind,
        from,
        groups,
        to,
    })
}
