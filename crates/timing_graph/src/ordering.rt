ghost use Rattle.std.specs.Prelude.{◌≡◌, ◌<◌, map, length, All, IfOk};
ghost use Rattle.bud_base.specs.Orders.{IsCycle, IsWithinNodes};
ghost use Rattle.timing_graph.specs.Orderings.{item_of, pin_of, pair_of, IsCycleFault, IsOrderAnswer};

use crate::faults::{GraphFault, PinPair};
use crate::graphs::Arc;
use crate::rings::own_cycle;
use bud_base::{Item, ItemId, Listed, NodeId, NodeOrder, PinId};
use bud_design::PinList;
use std::alloc::{AllocError, Global};

/// An item for each arc, from node to node as from pin to pin.
fn items_of(alloc: Global, arcs: &[Arc]) -> Result<Vec<Item>, AllocError>
    ensures { IfOk result (λ items. items.items ≡ map item_of arcs.now) }
{
    let mut items = Vec::with_capacity(alloc, arcs.len())?;
    for arc in arcs {
        items.push(Item {
            from: NodeId(arc.from.0),
            to: NodeId(arc.to.0),
            least: 0,
            greatest: 0,
            weight: 0,
        })?;
    }
    Ok(items)
}

/// The pins that nodes stand for.
fn pins_of(alloc: Global, nodes: &[NodeId]) -> Result<PinList, AllocError>
    ensures { IfOk result (λ pins. pins ≡ map pin_of nodes.now) }
{
    let mut pins = Vec::with_capacity(alloc, nodes.len())?;
    for node in nodes {
        pins.push(PinId(node.0))?;
    }
    Ok(Listed::from_vec(pins))
}

/// The pairs of pins of the arcs that items stand for.
fn pairs_of(alloc: Global, items: &[Item], ring: &[ItemId]) -> Result<Listed<PinPair>, AllocError>
    requires { All (λ a. a.0 < length items.now) ring.now }
    ensures { IfOk result (λ pairs. pairs ≡ map (pair_of items.now) ring.now) }
{
    let mut pairs = Vec::with_capacity(alloc, ring.len())?;
    for number in ring {
        let item = items[number.0 as usize];
        pairs.push(PinPair {
            from: PinId(item.from.0),
            to: PinId(item.to.0),
        })?;
    }
    Ok(Listed::from_vec(pairs))
}

/// The cycle that a ring of items stands for.
fn cycle_of(alloc: Global, nodes: u32, items: &[Item], ring: &[ItemId]) -> GraphFault
    requires within { All (IsWithinNodes nodes) items.now }
    requires cycle { IsCycle items.now ring.now }
    ensures { IsCycleFault items.now result }
{
    let Ok(own) = own_cycle(alloc, nodes as usize, items, ring) else {
        return GraphFault::NoMemory;
    };
    match pairs_of(alloc, items, &own) {
        Ok(pairs) => GraphFault::Cycle(pairs),
        Err(_) => GraphFault::NoMemory,
    }
}

/// An order of this many pins that every arc follows; where there is none, a cycle.
pub fn order_of(alloc: Global, pins: u32, arcs: &[Arc]) -> Result<PinList, GraphFault>
    requires few { length arcs.now < 2147483648 }
    requires within { All (λ a. (a.from.0 < pins) × (a.to.0 < pins)) arcs.now }
    ensures { IsOrderAnswer pins arcs.now result }
{
    let Ok(items) = items_of(alloc, arcs) else {
        return Err(GraphFault::NoMemory);
    };
    let Ok(mut order) = NodeOrder::new(alloc, pins, items.len()) else {
        return Err(GraphFault::NoMemory);
    };
    if !order.find(pins, &items) {
        return Err(cycle_of(alloc, pins, &items, order.cycle()));
    }
    match pins_of(alloc, order.nodes()) {
        Ok(pins) => Ok(pins),
        Err(_) => Err(GraphFault::NoMemory),
    }
}
