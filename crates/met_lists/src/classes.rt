ghost use Rattle.std.specs.Prelude.{◌≡◌, ◌<◌, ◌∷◌, [], map, length, IfOk};
ghost use Rattle.bud_design.specs.Exceptions.{class_of};
ghost use Rattle.met_lists.specs.Classes.{bare_class, AreMet};

use crate::launches::LaunchTable;
use crate::lists::{MetLists, meet};
use crate::turns::Turn;
use bud_base::Listed;
use bud_design::{Class, Constraints, Exception, Launch};
use std::alloc::{AllocError, Global};

/// The classes of launches that have met no exceptions.
fn bare_classes(alloc: Global, launches: &[Launch]) -> Result<Vec<Class>, AllocError>
    ensures { IfOk result (λ classes. classes.items ≡ map bare_class launches.now) }
{
    let mut classes = Vec::new(alloc);
    for launch in launches {
        classes.push(Class {
            clock: launch.clock,
            edge: launch.edge,
            exceptions: Listed::new(alloc),
        })?;
    }
    Ok(classes)
}

fn bare_lists(alloc: Global, launches: &[Launch]) -> Result<MetLists, AllocError>
    ensures { IfOk result (AreMet launches.now [] 0) }
{
    let classes = bare_classes(alloc, launches)?;
    let turns = vec![in alloc; 0; launches.len()]?;
    Ok(MetLists { classes, turns })
}

/// The classes of the launches by all exceptions.
fn met_lists(
    alloc: Global,
    launches: &[Launch],
    exceptions: &[Exception],
) -> Result<MetLists, AllocError>
    requires { length launches.now < 2147483648 }
    ensures { IfOk result (AreMet launches.now exceptions.now (length exceptions.now)) }
{
    let table = LaunchTable::of(alloc, launches)?;
    let mut lists = bare_lists(alloc, launches)?;
    for (place, exception) in exceptions.iter().enumerate() {
        let turn = Turn::of(alloc, place + 1, exception)?;
        meet(&turn, &table, &exception.from, &mut lists)?;
    }
    Ok(lists)
}

/// The class of each launch at its pin, in time linear in the launches, what exceptions name and the lists that result.
/// More launches than 2,147,483,647 are answered as want of memory.
pub fn first_classes(alloc: Global, all: &Constraints) -> Result<Vec<Class>, AllocError>
    ensures classes { IfOk result (λ classes. classes.items ≡ map (λ l. class_of all.now l (l.pin.0 ∷ [])) all.now.launches) }
    ensures few { IfOk result (λ classes. length classes.items < 2147483648) }
{
    let launches = all.launches.as_slice();
    if launches.len() >= 2147483648 {
        return Err(AllocError);
    }
    let MetLists { classes, .. } = met_lists(alloc, launches, all.exceptions.as_slice())?;
    Ok(classes)
}
