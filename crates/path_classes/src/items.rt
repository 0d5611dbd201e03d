ghost use Rattle.std.specs.Prelude.{◌≡◌, ◌<◌, ℕ, true, length, slice_index_or, All, AllPairs, IfOk, IfSome};
ghost use Rattle.std.specs.List.{AllZip};
ghost use Rattle.path_states.specs.Tables.{table_of, from_in, to_in, IsWithin};
ghost use Rattle.state_numbers.specs.Placed.{placed_before};
ghost use Rattle.state_numbers.specs.Ranks.{AreRanked};
ghost use Rattle.path_classes.specs.Placing.{AreItems, EndsWithin, IsItemAt};

use bud_base::{Item, NodeId};
use path_states::StateTable;
use state_numbers::{Placed, Ranks, find_placed};
use std::alloc::{AllocError, Global};

/// The edges that lead to live states, each by its class, its arc and the class behind it.
pub fn place_items(
    alloc: Global,
    table: &StateTable,
    live: &[bool],
    ranks: &Ranks,
) -> Result<Vec<Placed>, AllocError>
    requires lists { IsWithin (table_of table.now) }
    requires live { length live.now ≡ length table.now.states.keys }
    requires edges { EndsWithin (table_of table.now) live.now }
    requires ranked { AreRanked table.now.kinds table.now.states.keys table.now.launches.items live.now ranks.now.keys.items ranks.now.ranks.items }
    ensures { IfOk result (λ items. AreItems (table_of table.now) live.now ranks.now.ranks.items (length table.now.edges.items) items.items) }
{
    let states = table.states.as_slice();
    let places = ranks.ranks.as_slice();
    let edges = table.edges.as_slice();
    let arcs = table.arcs.as_slice();
    let mut items = Vec::new(alloc);
    for (place, edge) in edges.iter().enumerate() {
        if !live[edge.to.0 as usize] {
            continue;
        }
        let Some(class) = places[states[edge.from.0 as usize].kind as usize] else {
            unreachable!();
        };
        let Some(with) = places[states[edge.to.0 as usize].kind as usize] else {
            unreachable!();
        };
        items.push(Placed {
            class,
            number: arcs[place].0,
            with,
        })?;
    }
    Ok(items)
}

/// The item of an arc in a class, with the numbers of its nodes.
fn problem_item(arcs: &[Item], nodes: &[Placed], x: &Placed) -> Option<Item>
    requires rising { AllPairs (λ x y. placed_before x y ≡ true) nodes.now }
    requires arc { x.now.number < length arcs.now }
    ensures { IfSome result (λ item. IsItemAt arcs.now nodes.now x.now item) }
{
    let arc = arcs[x.number as usize];
    let from = find_placed(nodes, x.class, arc.from.0)?;
    let to = find_placed(nodes, x.with, arc.to.0)?;
    Some(Item {
        from: NodeId(u32::try_from(from).ok()?),
        to: NodeId(u32::try_from(to).ok()?),
        least: arc.least,
        greatest: arc.least,
        weight: 0,
    })
}

/// The problem's items, one for each arc in a class.
pub fn problem_items(
    alloc: Global,
    arcs: &[Item],
    nodes: &[Placed],
    items: &[Placed],
) -> Result<Vec<Item>, AllocError>
    requires rising { AllPairs (λ x y. placed_before x y ≡ true) nodes.now }
    requires arcs { All (λ x. x.number < length arcs.now) items.now }
    ensures { IfOk result (λ xs. AllZip (IsItemAt arcs.now nodes.now) items.now xs.items) }
{
    let mut list = Vec::new(alloc);
    for x in items {
        let Some(item) = problem_item(arcs, nodes, x) else {
            return Err(AllocError);
        };
        list.push(item)?;
    }
    Ok(list)
}
