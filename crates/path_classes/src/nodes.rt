ghost use Rattle.std.specs.Prelude.{◌≡◌, ◌<◌, map, length, All, IfOk};
ghost use Rattle.path_states.specs.Tables.{table_of, IsWithin};
ghost use Rattle.state_numbers.specs.Ranks.{AreRanked};
ghost use Rattle.path_classes.specs.Placing.{AreNodes, node_of, item_of as layer_item_of, classes_of};

use bud_base::{ArcId, ClassId, Listed, PinId};
use bud_design::{Class, LayerItem, LayerNode};
use path_states::StateTable;
use state_numbers::{KindKey, Placed, Ranks};
use std::alloc::{AllocError, Global};

fn copy_class(alloc: Global, class: &Class) -> Result<Class, AllocError>
    ensures { IfOk result (λ k. k ≡ class.now) }
{
    let met = Vec::from_slice(alloc, class.exceptions.as_slice())?;
    Ok(Class {
        clock: class.clock,
        edge: class.edge,
        exceptions: Listed::from_vec(met),
    })
}

/// The live classes, in their order.
pub fn live_classes(
    alloc: Global,
    kinds: &[Class],
    keys: &[KindKey],
) -> Result<Vec<Class>, AllocError>
    requires { All (λ x. x.kind < length kinds.now) keys.now }
    ensures { IfOk result (λ classes. classes.items ≡ classes_of kinds.now keys.now) }
{
    let mut classes = Vec::new(alloc);
    for key in keys {
        let class = copy_class(alloc, &kinds[key.kind as usize])?;
        classes.push(class)?;
    }
    Ok(classes)
}

/// The live states, each by its class and its pin.
pub fn place_nodes(
    alloc: Global,
    table: &StateTable,
    live: &[bool],
    ranks: &Ranks,
) -> Result<Vec<Placed>, AllocError>
    requires lists { IsWithin (table_of table.now) }
    requires live { length live.now ≡ length table.now.states.keys }
    requires ranked { AreRanked table.now.kinds table.now.states.keys table.now.launches.items live.now ranks.now.keys.items ranks.now.ranks.items }
    ensures { IfOk result (λ nodes. AreNodes (table_of table.now) live.now ranks.now.ranks.items (length table.now.states.keys) nodes.items) }
{
    let states = table.states.as_slice();
    let places = ranks.ranks.as_slice();
    let mut nodes = Vec::new(alloc);
    for (place, state) in states.iter().enumerate() {
        if !live[place] {
            continue;
        }
        let Some(class) = places[state.kind as usize] else {
            unreachable!();
        };
        nodes.push(Placed {
            class,
            number: state.pin.0,
            with: 0,
        })?;
    }
    Ok(nodes)
}

/// The nodes as pins in classes.
pub fn layer_nodes(alloc: Global, nodes: &[Placed]) -> Result<Vec<LayerNode>, AllocError>
    ensures { IfOk result (λ xs. xs.items ≡ map node_of nodes.now) }
{
    nodes
        .iter()
        .map(|x| LayerNode {
            pin: PinId(x.number),
            class: ClassId(x.class),
        })
        .collect(alloc)
}

/// The items as arcs in classes.
pub fn layer_items(alloc: Global, items: &[Placed]) -> Result<Vec<LayerItem>, AllocError>
    ensures { IfOk result (λ xs. xs.items ≡ map layer_item_of items.now) }
{
    items
        .iter()
        .map(|x| LayerItem {
            arc: ArcId(x.number),
            class: ClassId(x.class),
        })
        .collect(alloc)
}
