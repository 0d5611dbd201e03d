ghost use Rattle.std.specs.Prelude.{◌≡◌, ◌<◌, map, length, IfOk};
ghost use Rattle.design_layers.specs.Views.{arc_item};

use bud_base::{ArcId, Item, NodeId};
use std::alloc::{AllocError, Global};
use timing_graph::Graph;

/// The arcs of a graph as items from pin to pin.
pub fn arc_items(alloc: Global, graph: &Graph) -> Result<Vec<Item>, AllocError>
    ensures arcs { IfOk result (λ items. items.items ≡ map arc_item graph.now.arcs) }
    ensures few { IfOk result (λ items. length items.items < 2147483648) }
{
    let count = graph.count();
    let mut items = Vec::with_capacity(alloc, count as usize)?;
    for number in 0..count {
        let arc = ArcId(number);
        items.push(Item {
            from: NodeId(graph.from(arc).0),
            to: NodeId(graph.to(arc).0),
            least: graph.least(arc),
            greatest: 0,
            weight: 0,
        })?;
    }
    Ok(items)
}
