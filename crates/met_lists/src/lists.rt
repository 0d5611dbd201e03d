ghost use Rattle.std.specs.Prelude.{◌≡◌, ◌==◌, ◌||◌, ◌<◌, ℕ, true, length, OnOk};
ghost use Rattle.bud_design.specs.Exceptions.{has_pin, has_clock, names};
ghost use Rattle.name_tables.specs.Chained.{key_at, AreChained};
ghost use Rattle.met_lists.specs.Lists.{with_met, Notes, AreSized};
ghost use Rattle.met_lists.specs.Launches.{AreTabled};

use crate::launches::{Keyed, LaunchTable};
use crate::turns::Turn;
use bud_base::PinId;
use bud_design::{Class, Marks, Met};
use std::alloc::AllocError;

/// The classes of launches by the exceptions of so many turns, and the last turn in which each launch met one.
#[derive(Debug, Drop)]
pub struct MetLists {
    pub classes: Vec<Class>,
    pub turns: Vec<usize>,
}

fn give(class: &mut Class, met: Met) -> Result<(), AllocError>
    ensures { OnOk result (class.new ≡ with_met class.old met) }
{
    class.exceptions.push(met)?;
    Ok(())
}

/// Lists the exception at a launch that hasn't met it yet.
fn note(turn: &Turn, pins: &Keyed, number: u32, lists: &mut MetLists) -> Result<(), AllocError>
    requires within { number < length lists.old.classes.items }
    requires sizes { AreSized (length pins.now.keys.items) lists.old }
    ensures { OnOk result (Notes turn.now pins.now.keys.items (λ v. number == v) lists.old lists.new) }
{
    let place = number as usize;
    if lists.turns[place] == turn.turn {
        return Ok(());
    }
    lists.turns[place] = turn.turn;
    give(&mut lists.classes[place], turn.met(pins.keys[place]))
}

/// Lists the exception at the launches that have this key.
fn note_key(
    turn: &Turn,
    pins: &Keyed,
    keyed: &Keyed,
    key: u32,
    lists: &mut MetLists,
) -> Result<(), AllocError>
    requires count { length keyed.now.keys.items ≡ length pins.now.keys.items }
    requires chained { AreChained (key_at keyed.now.keys.items) 0 (length keyed.now.keys.items) keyed.now.chains }
    requires sizes { AreSized (length pins.now.keys.items) lists.old }
    ensures { OnOk result (Notes turn.now pins.now.keys.items (λ v. key_at keyed.now.keys.items v == key) lists.old lists.new) }
{
    let mut next = keyed.chains.first(key);
    while (next as usize) < keyed.keys.len() {
        note(turn, pins, next, lists)?;
        next = keyed.chains.next(next);
    }
    Ok(())
}

/// Lists the exception at the launches at these pins.
fn note_pins(
    turn: &Turn,
    table: &LaunchTable,
    pins: &[PinId],
    lists: &mut MetLists,
) -> Result<(), AllocError>
    requires table { AreTabled table.now }
    requires sizes { AreSized (length table.now.pins.keys.items) lists.old }
    ensures { OnOk result (Notes turn.now table.now.pins.keys.items (λ v. has_pin pins.now (key_at table.now.pins.keys.items v)) lists.old lists.new) }
{
    for pin in pins {
        note_key(turn, &table.pins, &table.pins, pin.0, lists)?;
    }
    Ok(())
}

/// Lists the exception at the launches of these clocks.
fn note_clocks(
    turn: &Turn,
    table: &LaunchTable,
    clocks: &[u32],
    lists: &mut MetLists,
) -> Result<(), AllocError>
    requires table { AreTabled table.now }
    requires sizes { AreSized (length table.now.pins.keys.items) lists.old }
    ensures { OnOk result (Notes turn.now table.now.pins.keys.items (λ v. has_clock clocks.now (key_at table.now.clocks.keys.items v)) lists.old lists.new) }
{
    for clock in clocks {
        note_key(turn, &table.pins, &table.clocks, *clock, lists)?;
    }
    Ok(())
}

/// Lists the exception at all launches.
fn note_all(turn: &Turn, pins: &Keyed, lists: &mut MetLists) -> Result<(), AllocError>
    requires few { length pins.now.keys.items < 2147483648 }
    requires sizes { AreSized (length pins.now.keys.items) lists.old }
    ensures { OnOk result (Notes turn.now pins.now.keys.items (λ v. true) lists.old lists.new) }
{
    for number in 0..pins.keys.len() as u32 {
        note(turn, pins, number, lists)?;
    }
    Ok(())
}

/// Lists the exception at the launches that its from-part names.
pub fn meet(
    turn: &Turn,
    table: &LaunchTable,
    from: &Option<Marks>,
    lists: &mut MetLists,
) -> Result<(), AllocError>
    requires few { length table.now.pins.keys.items < 2147483648 }
    requires table { AreTabled table.now }
    requires sizes { AreSized (length table.now.pins.keys.items) lists.old }
    ensures { OnOk result (Notes turn.now table.now.pins.keys.items (λ v. names from.now (key_at table.now.pins.keys.items v) (key_at table.now.clocks.keys.items v)) lists.old lists.new) }
{
    match from {
        None => note_all(turn, &table.pins, lists),
        Some(marks) => {
            note_pins(turn, table, marks.pins.as_slice(), lists)?;
            note_clocks(turn, table, marks.clocks.as_slice(), lists)
        }
    }
}
