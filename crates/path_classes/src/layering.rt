ghost use Rattle.std.specs.Prelude.{◌≡◌, ◌<◌, map, length, All, IfOk};
ghost use Rattle.std.specs.List.Sorted.{IsPermutation};
ghost use Rattle.bud_base.specs.Leaving.{AreLinks};
ghost use Rattle.class_ends.specs.Asks.{capture_item, HasSoundConstraints};
ghost use Rattle.path_states.specs.Tables.{table_of, IsWithin};
ghost use Rattle.path_states.specs.Exploring.{IsExplored, PinsBelow};
ghost use Rattle.state_numbers.specs.Ranks.{AreRanked};
ghost use Rattle.path_classes.specs.Placing.{EndsWithin};
ghost use Rattle.path_classes.specs.Layering.{AreRising, HasParts, HasNoRing, IsLiveTable, ArePlaces, CanLayer, IsLayeredFrom};

use crate::ends::{problem_ends, state_ends};
use crate::items::{place_items, problem_items};
use crate::nodes::{layer_items, layer_nodes, live_classes, place_nodes};
use crate::starts::{place_starts, problem_starts};
use bud_base::{Item, Links, Listed, Problem};
use bud_design::{Constraints, Layered};
use class_ends::link_captures;
use live_states::mark_leading;
use path_states::StateTable;
use state_numbers::{KindKey, Placed, Ranks, are_rising, rank_kinds, sort_placed};
use std::alloc::{AllocError, Global};

/// The list in order of classes and numbers.
fn sorted(mut list: Vec<Placed>) -> Result<Vec<Placed>, AllocError>
    ensures permutation { IfOk result (λ xs. IsPermutation list.items xs.items) }
    ensures rising { IfOk result (λ xs. AreRising xs.items) }
{
    sort_placed(&mut list);
    if !are_rising(list.as_slice()) {
        return Err(AllocError);
    }
    Ok(list)
}

/// Marks the states that lead on to an end.
fn live_marks(
    alloc: Global,
    arcs: &[Item],
    all: &Constraints,
    links: &Links,
    table: &StateTable,
) -> Result<Vec<bool>, AllocError>
    requires sound { HasSoundConstraints all.now }
    requires clocks { All (λ l. l.clock < length all.now.clocks) all.now.launches }
    requires links { AreLinks (map capture_item all.now.captures) links.now }
    requires pins { PinsBelow (length links.now.first) arcs.now all.now }
    requires acyclic { HasNoRing arcs.now }
    requires explored { IsExplored arcs.now all.now (table_of table.now) }
    ensures { IfOk result (λ live. IsLiveTable all.now (table_of table.now) live.items) }
{
    let ends = state_ends(alloc, all, links, table)?;
    let edges = table.edges.as_slice();
    let stops = ends.as_slice();
    let count = table.states.len();
    let Ok(states) = u32::try_from(count) else {
        return Err(AllocError);
    };
    if edges.len() >= 2147483648 {
        return Err(AllocError);
    }
    let live = mark_leading(alloc, states, edges, stops)?;
    Ok(live)
}

/// Nodes, items and starts in their orders.
#[derive(Debug, Drop)]
struct Places {
    nodes: Vec<Placed>,
    items: Vec<Placed>,
    starts: Vec<Placed>,
}

/// Puts the live states, the edges to them and the launches that begin at them in their orders.
fn place_all(
    alloc: Global,
    all: &Constraints,
    table: &StateTable,
    live: &[bool],
    ranks: &Ranks,
) -> Result<Places, AllocError>
    requires lists { IsWithin (table_of table.now) }
    requires live { length live.now ≡ length table.now.states.keys }
    requires edges { EndsWithin (table_of table.now) live.now }
    requires ranked { AreRanked table.now.kinds table.now.states.keys table.now.launches.items live.now ranks.now.keys.items ranks.now.ranks.items }
    ensures { IfOk result (λ x. ArePlaces all.now (table_of table.now) live.now ranks.now.ranks.items x.nodes.items x.items.items x.starts.items) }
{
    let places = ranks.ranks.as_slice();
    let found = place_nodes(alloc, table, live, ranks)?;
    let nodes = sorted(found)?;
    let edges = place_items(alloc, table, live, ranks)?;
    let items = sorted(edges)?;
    let order = nodes.as_slice();
    let begun = place_starts(alloc, all, &table.kinds, places, order)?;
    let starts = sorted(begun)?;
    Ok(Places {
        nodes,
        items,
        starts,
    })
}

/// The layering of what is placed.
fn layered_from(
    alloc: Global,
    arcs: &[Item],
    all: &Constraints,
    links: &Links,
    table: &StateTable,
    keys: &[KindKey],
    places: &Places,
) -> Result<Layered, AllocError>
    requires sound { HasSoundConstraints all.now }
    requires links { AreLinks (map capture_item all.now.captures) links.now }
    requires keys { All (λ x. x.kind < length table.now.kinds) keys.now }
    requires places { CanLayer arcs.now all.now (length links.now.first) table.now.kinds keys.now places.now.nodes.items places.now.items.items places.now.starts.items }
    ensures { IfOk result (λ x. IsLayeredFrom arcs.now all.now table.now.kinds keys.now places.now.nodes.items places.now.items.items places.now.starts.items x) }
{
    let nodes = places.nodes.as_slice();
    let items = places.items.as_slice();
    let begun = places.starts.as_slice();
    let kinds = table.kinds.as_slice();
    let launches = all.launches.as_slice();
    let classes = live_classes(alloc, kinds, keys)?;
    let order = classes.as_slice();
    let ends = problem_ends(alloc, all, links, order, nodes)?;
    let joined = problem_items(alloc, arcs, nodes, items)?;
    let starts = problem_starts(alloc, launches, begun)?;
    let pins = layer_nodes(alloc, nodes)?;
    let edges = layer_items(alloc, items)?;
    let Ok(count) = u32::try_from(nodes.len()) else {
        return Err(AllocError);
    };
    Ok(Layered {
        problem: Problem {
            nodes: count,
            items: Listed::from_vec(joined),
            starts: Listed::from_vec(starts),
            ends: Listed::from_vec(ends),
        },
        classes: Listed::from_vec(classes),
        nodes: Listed::from_vec(pins),
        items: Listed::from_vec(edges),
        version: 1,
    })
}

/// The layering of arcs between so many pins, under no policy, by the states that launches reach along them.
/// The arcs are given as items from pin to pin.
pub fn layer_arcs(
    alloc: Global,
    arcs: &[Item],
    all: &Constraints,
    pins: u32,
    table: &StateTable,
) -> Result<Layered, AllocError>
    requires captures { length all.now.captures < 2147483648 }
    requires pins { PinsBelow pins arcs.now all.now }
    requires capture_pins { All (λ x. x.pin.0 < pins) all.now.captures }
    requires sound { HasSoundConstraints all.now }
    requires clocks { All (λ l. l.clock < length all.now.clocks) all.now.launches }
    requires acyclic { HasNoRing arcs.now }
    requires explored { IsExplored arcs.now all.now (table_of table.now) }
    ensures { IfOk result (λ layered. HasParts arcs.now all.now 1 layered) }
{
    let captures = all.captures.as_slice();
    let links = link_captures(alloc, captures, pins)?;
    let live = live_marks(alloc, arcs, all, &links, table)?;
    let marks = live.as_slice();
    let ranks = rank_kinds(alloc, table, marks)?;
    let keys = ranks.keys.as_slice();
    let places = place_all(alloc, all, table, marks, &ranks)?;
    let layered = layered_from(alloc, arcs, all, &links, table, keys, &places)?;
    Ok(layered)
}
