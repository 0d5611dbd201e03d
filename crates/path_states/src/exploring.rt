ghost use Rattle.std.specs.Prelude.{◌≡◌, ◌<◌, ◌∷◌, [], suc, length, OnOk, IfOk};
ghost use Rattle.bud_base.specs.Leaving.{AreLinks};
ghost use Rattle.bud_base.specs.Paths.{item_at};
ghost use Rattle.bud_design.specs.Exceptions.{class_of, class_at};
ghost use Rattle.bud_design.specs.TimingPaths.{launch_at};
ghost use Rattle.path_states.specs.Tables.{table_of, class_in, IsWithin};
ghost use Rattle.path_states.specs.Entering.{Enters};
ghost use Rattle.path_states.specs.Groups.{AreGroups};
ghost use Rattle.path_states.specs.Exploring.{IsExploring, IsExplored, Follows, AddsEdge, CanFollow, PinsBelow};

use crate::entering::{enter, enter_kind};
use crate::groups::{Groups, find_groups};
use crate::tables::StateTable;
use bud_base::{ArcId, Item, ItemId, Links, NodeId, PinId};
use bud_design::{Class, Constraints};
use class_steps::{ClassTable, next_class};
use indexmap::IndexSet;
use met_lists::first_classes;
use std::alloc::{AllocError, Global};

/// Enters a pin in the class behind a state; where the pin lies in no group, that is the state's.
fn enter_behind(
    alloc: Global,
    all: &Constraints,
    groups: &Groups,
    table: &mut StateTable,
    from: u32,
    pin: PinId,
    launch: u32,
) -> Result<u32, AllocError>
    requires lists { IsWithin (table_of table.old) }
    requires from { from < length table.old.states.keys }
    requires pin { pin.0 < length groups.now.marks.items }
    requires groups { AreGroups all.now.exceptions groups.now }
    ensures { IfOk result (λ i. Enters (table_of table.old) (table_of table.new) i pin.0 (class_at all.now (class_in (table_of table.old) from) pin.0) launch) }
{
    let state = table.states.as_slice()[from as usize];
    if !groups.marks[pin.0 as usize] {
        return enter_kind(table, pin, state.kind, launch);
    }
    let class = next_class(
        alloc,
        all,
        &groups.pins,
        &table.kinds.as_slice()[state.kind as usize],
        pin,
    )?;
    enter(alloc, table, pin, class, launch)
}

/// Goes along an arc from a state.
fn follow(
    alloc: Global,
    arcs: &[Item],
    all: &Constraints,
    groups: &Groups,
    table: &mut StateTable,
    from: u32,
    arc: ItemId,
    launch: u32,
) -> Result<(), AllocError>
    requires state { CanFollow arcs.now (table_of table.old) from arc.0 launch }
    requires pin { (item_at arcs.now arc.0).to.0 < length groups.now.marks.items }
    requires groups { AreGroups all.now.exceptions groups.now }
    ensures { OnOk result (Follows arcs.now all.now (table_of table.old) (table_of table.new) from arc.0 launch) }
{
    let pin = PinId(arcs[arc.0 as usize].to.0);
    let to = enter_behind(alloc, all, groups, table, from, pin, launch)?;
    add_edge(table, NodeId(from), NodeId(to), ArcId(arc.0))?;
    Ok(())
}

fn add_edge(table: &mut StateTable, from: NodeId, to: NodeId, arc: ArcId) -> Result<(), AllocError>
    ensures { OnOk result (AddsEdge (table_of table.old) (table_of table.new) from to arc) }
{
    table.edges.push(Item {
        from,
        to,
        least: 0,
        greatest: 0,
        weight: 0,
    })?;
    table.arcs.push(arc)?;
    Ok(())
}

/// Enters the state where a launch begins, in its class there.
fn begin(
    alloc: Global,
    arcs: &[Item],
    all: &Constraints,
    table: &mut StateTable,
    number: u32,
    class: Class,
) -> Result<(), AllocError>
    requires within { number < length all.now.launches }
    requires first { class ≡ class_of all.now (launch_at all.now.launches number) ((launch_at all.now.launches number).pin.0 ∷ []) }
    requires exploring { IsExploring arcs.now all.now (table_of table.old) (length table.old.states.keys) number number }
    ensures { OnOk result (IsExploring arcs.now all.now (table_of table.new) (length table.old.states.keys) number (suc number)) }
{
    let pin = all.launches.as_slice()[number as usize].pin;
    let _ = enter(alloc, table, pin, class, number)?;
    Ok(())
}

/// Goes along each arc from the next state.
fn take(
    alloc: Global,
    arcs: &[Item],
    links: &Links,
    all: &Constraints,
    groups: &Groups,
    table: &mut StateTable,
    done: u32,
    launch: u32,
) -> Result<(), AllocError>
    requires pin_marks { length groups.now.marks.items ≡ length links.now.first }
    requires groups { AreGroups all.now.exceptions groups.now }
    requires links { AreLinks arcs.now links.now }
    requires pins { PinsBelow (length links.now.first) arcs.now all.now }
    requires next { done < length table.old.states.keys }
    requires exploring { IsExploring arcs.now all.now (table_of table.old) done launch (suc launch) }
    ensures { OnOk result (IsExploring arcs.now all.now (table_of table.new) (suc done) launch (suc launch)) }
{
    let pin = table.states.as_slice()[done as usize].pin;
    let mut next = links.first(NodeId(pin.0));
    while let Some(arc) = next {
        follow(alloc, arcs, all, groups, table, done, arc, launch)?;
        next = links.next(arc);
    }
    Ok(())
}

/// Goes on until each state has its edges, and tells how many states there are.
fn close(
    alloc: Global,
    arcs: &[Item],
    links: &Links,
    all: &Constraints,
    groups: &Groups,
    table: &mut StateTable,
    mut done: u32,
    launch: u32,
) -> Result<u32, AllocError>
    requires pin_marks { length groups.now.marks.items ≡ length links.now.first }
    requires groups { AreGroups all.now.exceptions groups.now }
    requires links { AreLinks arcs.now links.now }
    requires pins { PinsBelow (length links.now.first) arcs.now all.now }
    requires exploring { IsExploring arcs.now all.now (table_of table.old) done launch (suc launch) }
    ensures all { IfOk result (λ done. done ≡ length table.new.states.keys) }
    ensures explored { OnOk result (IsExploring arcs.now all.now (table_of table.new) (length table.new.states.keys) launch (suc launch)) }
{
    while (done as usize) < table.states.len() {
        take(alloc, arcs, links, all, groups, table, done, launch)?;
        let Some(more) = done.checked_add(1) else {
            return Err(AllocError);
        };
        done = more;
    }
    Ok(done)
}

/// The states that launches reach along arcs between so many pins. The arcs are given as items from pin to pin.
pub fn explore(
    alloc: Global,
    arcs: &[Item],
    all: &Constraints,
    pins: u32,
) -> Result<StateTable, AllocError>
    requires small { length arcs.now < 2147483648 }
    requires pins { PinsBelow pins arcs.now all.now }
    ensures { IfOk result (λ t. IsExplored arcs.now all.now (table_of t)) }
{
    let mut links = Links::new(alloc, pins, arcs.len())?;
    links.fill(arcs);
    let groups = find_groups(alloc, all.exceptions.as_slice(), pins)?;
    let mut table = StateTable {
        kinds: ClassTable::new(alloc),
        states: IndexSet::new(alloc),
        launches: Vec::new(alloc),
        edges: Vec::new(alloc),
        arcs: Vec::new(alloc),
    };
    let mut number = 0;
    let mut done = 0;
    for class in first_classes(alloc, all)? {
        begin(alloc, arcs, all, &mut table, number, class)?;
        done = close(alloc, arcs, &links, all, &groups, &mut table, done, number)?;
        number += 1;
    }
    Ok(table)
}
