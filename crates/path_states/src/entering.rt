ghost use Rattle.std.specs.Prelude.{◌≡◌, ◌<◌, length, suc, true, false, AllPairs, IfOk, OnOk};
ghost use Rattle.bud_design.specs.Layers.{class_number};
ghost use Rattle.path_states.specs.Entering.{IsEntered, Enters, LongerIf};
ghost use Rattle.path_states.specs.Tables.{table_of, IsWithin};

use crate::tables::{State, StateTable};
use bud_base::PinId;
use bud_design::Class;
use class_steps::ClassTable;
use indexmap::IndexSet;
use std::alloc::{AllocError, Global};
use std::mem;

/// The number of a class, which is added where it isn't there.
fn enter_class(alloc: Global, kinds: &mut ClassTable, class: Class) -> Result<usize, AllocError>
    requires { AllPairs (λ j k. j ≡ k → ⊥) kinds.old }
    ensures entered { IfOk result (λ i. IsEntered kinds.old kinds.new class i) }
    ensures different { OnOk result (AllPairs (λ j k. j ≡ k → ⊥) kinds.new) }
{
    if let Some(place) = kinds.find(&class) {
        return Ok(place);
    }
    let place = kinds.len();
    let others = mem::replace(kinds, ClassTable::new(alloc));
    *kinds = others.with(class)?;
    Ok(place)
}

/// The number of a state, and whether it is new.
#[derive(Clone, Copy)]
struct Entered {
    place: usize,
    added: bool,
}

fn enter_state(states: &mut IndexSet<State>, state: State) -> Result<Entered, AllocError>
    ensures entered { IfOk result (λ r. IsEntered states.old.keys states.new.keys state r.place) }
    ensures added { IfOk result (λ r. LongerIf r.added (length states.old.keys) (length states.new.keys)) }
{
    match states.insert_full(state) {
        Ok((place, added)) => Ok(Entered { place, added }),
        Err(_) => Err(AllocError),
    }
}

/// Enters a pin in a class that this launch reaches.
pub fn enter(
    alloc: Global,
    table: &mut StateTable,
    pin: PinId,
    class: Class,
    launch: u32,
) -> Result<u32, AllocError>
    requires { IsWithin (table_of table.old) }
    ensures { IfOk result (λ i. Enters (table_of table.old) (table_of table.new) i pin.0 class launch) }
{
    let Ok(kind) = u32::try_from(enter_class(alloc, &mut table.kinds, class)?) else {
        return Err(AllocError);
    };
    let entered = enter_state(&mut table.states, State { pin, kind })?;
    if entered.added {
        table.launches.push(launch)?;
    }
    u32::try_from(entered.place).map_err(|_| AllocError)
}

/// Enters a pin in a class of this number that this launch reaches.
pub fn enter_kind(
    table: &mut StateTable,
    pin: PinId,
    kind: u32,
    launch: u32,
) -> Result<u32, AllocError>
    requires lists { IsWithin (table_of table.old) }
    requires kind { kind < length table.old.kinds }
    ensures { IfOk result (λ i. Enters (table_of table.old) (table_of table.new) i pin.0 (class_number table.old.kinds kind) launch) }
{
    let entered = enter_state(&mut table.states, State { pin, kind })?;
    if entered.added {
        table.launches.push(launch)?;
    }
    u32::try_from(entered.place).map_err(|_| AllocError)
}
