ghost use Rattle.std.specs.Prelude.{◌≡◌, ◌^◌, ◌<◌, ◌↔◌, IsTrue, length, All};
ghost use Rattle.bud_base.specs.Checking.{OrdersNodes, IsLiveAnswer};
ghost use Rattle.bud_base.specs.Leaving.{AreLinks};
ghost use Rattle.bud_base.specs.Markings.{Marks, NoneMarked, HasStart, HasEnd, HasItem, LeadsToMarked, NamesOwnNodes, AreReached, AreReaching, IsFirstUnmarked};
ghost use Rattle.bud_base.specs.Orders.{IsWithinNodes};

use crate::checks::ProblemFault;
use crate::ids::NodeId;
use crate::links::Links;
use crate::orders::NodeOrder;
use crate::problems::{End, Item, Problem, Start};

/// Looks for the first node that no path passes.
///
/// It marks nodes forwards from the starts, in the order of the nodes, and backwards from the ends,
/// against it.
pub fn check_live(problem: &Problem, order: &NodeOrder) -> Result<(), ProblemFault>
    requires names { NamesOwnNodes problem.now }
    requires order { OrdersNodes problem.now order.now }
    ensures { IsLiveAnswer problem.now result }
{
    let alloc = problem.items.allocator();
    let nodes = problem.nodes as usize;
    let Ok(mut reached) = vec![in alloc; false; nodes] else {
        return Err(ProblemFault::NoMemory);
    };
    let Ok(mut reaching) = vec![in alloc; false; nodes] else {
        return Err(ProblemFault::NoMemory);
    };
    mark_reached(problem, order, &mut reached);
    mark_reaching(problem, order, &mut reaching);
    match first_unmarked(&reached, &reaching) {
        Some(node) => Err(ProblemFault::Dead(node)),
        None => Ok(()),
    }
}

/// Marks the nodes that a start leads to.
fn mark_reached(problem: &Problem, order: &NodeOrder, marks: &mut [bool])
    requires size { length marks.old ≡ problem.now.nodes }
    requires none { NoneMarked marks.old }
    requires names { NamesOwnNodes problem.now }
    requires order { OrdersNodes problem.now order.now }
    ensures { AreReached problem.now marks.new }
{
    mark_starts(problem.starts.as_slice(), marks);
    for node in order.nodes() {
        if marks[node.0 as usize] {
            mark_heads(problem.items.as_slice(), order.links(), *node, marks);
        }
    }
}

/// Marks the nodes that lead to an end.
fn mark_reaching(problem: &Problem, order: &NodeOrder, marks: &mut [bool])
    requires size { length marks.old ≡ problem.now.nodes }
    requires none { NoneMarked marks.old }
    requires names { NamesOwnNodes problem.now }
    requires order { OrdersNodes problem.now order.now }
    ensures { AreReaching problem.now marks.new }
{
    mark_ends(problem.ends.as_slice(), marks);
    let nodes = order.nodes();
    let mut place = nodes.len();
    while place > 0 {
        place -= 1;
        let node = nodes[place];
        if leads_to_marked(problem.items.as_slice(), order.links(), node, marks) {
            marks[node.0 as usize] = true;
        }
    }
}

fn mark_starts(starts: &[Start], marks: &mut [bool])
    requires { All (λ s. s.node.0 < length marks.old) starts.now }
    ensures { Marks (HasStart starts.now (length starts.now)) marks.old marks.new }
{
    for start in starts {
        marks[start.node.0 as usize] = true;
    }
}

fn mark_ends(ends: &[End], marks: &mut [bool])
    requires { All (λ e. e.node.0 < length marks.old) ends.now }
    ensures { Marks (HasEnd ends.now (length ends.now)) marks.old marks.new }
{
    for end in ends {
        marks[end.node.0 as usize] = true;
    }
}

/// Marks the nodes that the items of a node lead to.
fn mark_heads(items: &[Item], links: &Links, node: NodeId, marks: &mut [bool])
    requires within { All (IsWithinNodes (length marks.old)) items.now }
    requires links { AreLinks items.now links.now }
    requires node { node.0 < length links.now.first }
    ensures { Marks (HasItem items.now (length items.now) node.0) marks.old marks.new }
{
    let mut next = links.first(node);
    while let Some(item) = next {
        let head = items[item.0 as usize].to;
        marks[head.0 as usize] = true;
        next = links.next(item);
    }
}

/// Whether an item of the node leads to a marked node.
fn leads_to_marked(items: &[Item], links: &Links, node: NodeId, marks: &[bool]) -> bool
    requires within { All (IsWithinNodes (length marks.now)) items.now }
    requires links { AreLinks items.now links.now }
    requires node { node.0 < length links.now.first }
    ensures { IsTrue result ↔ LeadsToMarked items.now marks.now node.0 }
{
    let mut next = links.first(node);
    while let Some(item) = next {
        let head = items[item.0 as usize].to;
        if marks[head.0 as usize] {
            return true;
        }
        next = links.next(item);
    }
    false
}

/// The first node that lacks one of its two marks.
fn first_unmarked(marks: &[bool], others: &[bool]) -> Option<NodeId>
    requires same { length others.now ≡ length marks.now }
    requires small { length marks.now < 2 ^ 32 }
    ensures { IsFirstUnmarked marks.now others.now result }
{
    for n in 0..marks.len() {
        if !marks[n] || !others[n] {
            return Some(NodeId(n as u32));
        }
    }
    None
}
