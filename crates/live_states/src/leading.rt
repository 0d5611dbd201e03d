ghost use Rattle.std.specs.Prelude.{◌≡◌, ◌<◌, ◌↔◌, List, length, All, IsTrue, IfOk};
ghost use Rattle.bud_base.specs.Leaving.{AreLinks};
ghost use Rattle.bud_base.specs.Orders.{IsWithinNodes, IsCycle};
ghost use Rattle.bud_base.specs.Markings.{Marks, NoneMarked, HasEnd, LeadsToMarked, AreReaching};
ghost use Rattle.bud_base.specs.declared.ids.ItemId.{ItemId};
ghost use Rattle.live_states.specs.Leading.{leading_graph, FollowsOrder};

use bud_base::{End, Item, Links, NodeId, NodeOrder};
use std::alloc::{AllocError, Global};

/// Marks the nodes from which items lead to an end. It takes time and memory linear in the nodes, items and ends.
pub fn mark_leading(
    alloc: Global,
    nodes: u32,
    items: &[Item],
    ends: &[End],
) -> Result<Vec<bool>, AllocError>
    requires small { length items.now < 2147483648 }
    requires items { All (IsWithinNodes nodes) items.now }
    requires ends { All (λ e. e.node.0 < nodes) ends.now }
    requires acyclic { (ring : List ItemId) → IsCycle items.now ring → ⊥ }
    ensures leading { IfOk result (λ marks. AreReaching (leading_graph nodes items.now ends.now) marks.items) }
    ensures size { IfOk result (λ marks. length marks.items ≡ nodes) }
{
    let mut order = NodeOrder::new(alloc, nodes, items.len())?;
    if !order.find(nodes, items) {
        unreachable!();
    }
    let mut marks = vec![in alloc; false; nodes as usize]?;
    spread_back(nodes, items, ends, &order, &mut marks);
    Ok(marks)
}

fn mark_ends(ends: &[End], marks: &mut [bool])
    requires { All (λ e. e.node.0 < length marks.old) ends.now }
    ensures { Marks (HasEnd ends.now (length ends.now)) marks.old marks.new }
{
    for end in ends {
        marks[end.node.0 as usize] = true;
    }
}

/// Marks the ends' nodes, and against the order the nodes that lead to marked ones.
fn spread_back(nodes: u32, items: &[Item], ends: &[End], order: &NodeOrder, marks: &mut [bool])
    requires size { length marks.old ≡ nodes }
    requires none { NoneMarked marks.old }
    requires items { All (IsWithinNodes nodes) items.now }
    requires ends { All (λ e. e.node.0 < nodes) ends.now }
    requires order { FollowsOrder nodes items.now order.now }
    ensures { AreReaching (leading_graph nodes items.now ends.now) marks.new }
{
    mark_ends(ends, marks);
    let places = order.nodes();
    let mut place = places.len();
    while place > 0 {
        place -= 1;
        let node = places[place];
        if leads_to_marked(items, order.links(), node, marks) {
            marks[node.0 as usize] = true;
        }
    }
}

/// Whether an item of the node leads to a marked node.
fn leads_to_marked(items: &[Item], links: &Links, node: NodeId, marks: &[bool]) -> bool
    requires within { All (IsWithinNodes (length marks.now)) items.now }
    requires links { AreLinks items.now links.now }
    requires node { node.0 < length links.now.first }
    ensures { IsTrue result ↔ LeadsToMarked items.now marks.now node.0 }
{
    let mut next = links.first(node);
    while let Some(item) = next {
        let head = items[item.0 as usize].to;
        if marks[head.0 as usize] {
            return true;
        }
        next = links.next(item);
    }
    false
}
