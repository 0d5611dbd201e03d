ghost use Rattle.std.specs.Prelude.{◌≡◌, ◌^◌, ◌<◌, ◌≤◌, ◌↔◌, false, length, All, IsTrue, IfOk};
ghost use Rattle.bud_base.specs.Leaving.{AreLinks};
ghost use Rattle.bud_base.specs.OrderLists.{node_room, item_room, FitsRoom, KeepsRoom};
ghost use Rattle.bud_base.specs.Orders.{IsWithinNodes, IsOrder, IsCycle};
ghost use Rattle.bud_base.specs.Rings.{IsLeastPlace, IsTurned};
ghost use Rattle.bud_base.specs.Searches.{mark_at, AreNew, IsTop, IsStep, IsArranged, IsExplored, IsSearched, IsFound};

use crate::ids::{ItemId, NodeId};
use crate::links::Links;
use crate::problems::Item;
use std::alloc::{AllocError, Global};
use std::marker::Model;

/// How far a search has come with a node.
#[derive(Clone, Copy, Debug)]
enum Mark {
    New,
    /// On the way from the root, behind so many items.
    Open(u32),
    /// At a place of the order.
    Placed(u32),
}

/// The last node of the way, and the first of its items that is not tried yet.
#[derive(Clone, Copy)]
struct Top {
    node: NodeId,
    next: Option<ItemId>,
}

/// How a search goes on at the last node of the way.
enum Step {
    /// Along this item to a new node.
    Enter(ItemId),
    /// This item leads back to the node behind so many items of the way.
    Ring(ItemId, u32),
    /// Every item of the node leads to a placed node.
    Close,
}

/// Where the items of a ring stand on the way.
#[derive(Clone, Copy, Debug)]
struct Span {
    from: usize,
    to: usize,
}

/// An order of a problem's nodes that every item follows, or a ring of items.
///
/// It is room for problems up to a size, and `find` takes no memory.
#[derive(Debug, Drop)]
pub struct NodeOrder {
    links: Links,
    marks: Vec<Mark>,
    order: Vec<NodeId>,
    nodes: usize,
    path: Vec<ItemId>,
    ring: Span,
}

impl Model for NodeOrder {
    ghost use Rattle.std.specs.Prelude.{◌≡◌, ◌≤◌, length, take, slice_range};
    ghost use Rattle.bud_base.specs.OrderLists.{OrderLists};

    ghost Value = { OrderLists };

    ghost view = { λ o. record {
      order = take o.nodes o.order.items;
      links = o.links;
      cycle = slice_range o.path.items o.ring.from o.ring.to;
    } };

    ghost invariant = { λ o. (length o.marks.items ≡ length o.links.first)
        × (length o.order.items ≡ length o.links.first)
        × (length o.path.items ≡ length o.links.first)
        × (o.nodes ≤ length o.links.first)
        × (o.ring.from ≤ o.ring.to)
        × (o.ring.to ≤ length o.links.first) };
}

impl NodeOrder {
    /// Room for this many nodes and items.
    pub fn new(alloc: Global, nodes: u32, items: usize) -> Result<NodeOrder, AllocError>
        ensures nodes { IfOk result (λ order. node_room order ≡ nodes) }
        ensures items { IfOk result (λ order. item_room order ≡ items) }
    {
        let room = nodes as usize;
        let links = Links::new(alloc, nodes, items)?;
        let marks = vec![in alloc; Mark::New; room]?;
        let order = vec![in alloc; NodeId(0); room]?;
        let path = vec![in alloc; ItemId(0); room]?;
        Ok(NodeOrder {
            links,
            marks,
            order,
            nodes: 0,
            path,
            ring: Span { from: 0, to: 0 },
        })
    }

    /// Whether there is room for this many nodes and items.
    pub fn fits(&self, nodes: u32, items: usize) -> bool
        ensures { IsTrue result ↔ FitsRoom self.now nodes items }
    {
        self.links.fits(nodes, items)
    }

    /// Looks for an order of the nodes that every item follows; where there is none, for a ring.
    ///
    /// It takes time linear in the room for nodes and the items, and no memory.
    pub fn find(&mut self, nodes: u32, items: &[Item]) -> bool
        requires room { FitsRoom self.old nodes (length items.now) }
        requires small { length items.now < 2147483648 }
        requires within { All (IsWithinNodes nodes) items.now }
        ensures order { IsTrue result → IsOrder nodes items.now self.new.order }
        ensures cycle { result ≡ false → IsCycle items.now self.new.cycle }
        ensures links { AreLinks items.now self.new.links }
        ensures room { KeepsRoom self.old self.new }
    {
        self.links.fill(items);
        self.nodes = nodes as usize;
        let ring = search(
            items,
            &self.links,
            self.nodes,
            &mut self.marks,
            &mut self.order,
            &mut self.path,
        );
        match ring {
            None => {
                self.ring = Span { from: 0, to: 0 };
                true
            }
            Some(span) => {
                self.ring = span;
                false
            }
        }
    }

    /// The nodes in the order that was found last.
    pub fn nodes(&self) -> &[NodeId]
        ensures { result.now ≡ self.now.order }
    {
        &self.order[..self.nodes]
    }

    /// The links of the items that were looked at last.
    pub fn links(&self) -> &Links
        ensures { result.now ≡ self.now.links }
    {
        &self.links
    }

    /// The items of the ring that was found last, the least item number first.
    pub fn cycle(&self) -> &[ItemId]
        ensures { result.now ≡ self.now.cycle }
    {
        &self.path[self.ring.from..self.ring.to]
    }
}

fn clear(marks: &mut [Mark])
    ensures { AreNew marks.new }
{
    for mark in marks.iter_mut() {
        *mark = Mark::New;
    }
}

/// Skips the items that lead to placed nodes.
fn advance(items: &[Item], links: &Links, marks: &[Mark], top: Top) -> Step
    requires within { All (IsWithinNodes (length marks.now)) items.now }
    requires links { AreLinks items.now links.now }
    requires top { IsTop items.now marks.now top }
    ensures { IsStep items.now marks.now top.node.0 result }
{
    let mut next = top.next;
    while let Some(item) = next {
        let head = items[item.0 as usize].to;
        match marks[head.0 as usize] {
            Mark::New => return Step::Enter(item),
            Mark::Open(depth) => return Step::Ring(item, depth),
            Mark::Placed(_) => next = links.next(item),
        }
    }
    Step::Close
}

/// Searches from a new node, and fills the order from the end.
///
/// It answers how many places stay free, or where a ring stands on the way.
fn explore(
    items: &[Item],
    links: &Links,
    marks: &mut [Mark],
    order: &mut [NodeId],
    path: &mut [ItemId],
    mut free: u32,
    root: NodeId,
) -> Result<u32, Span>
    requires small { length marks.old < 2 ^ 32 }
    requires order { length order.old ≡ length marks.old }
    requires path { length path.old ≡ length marks.old }
    requires room { length marks.old ≤ length links.now.first }
    requires within { All (IsWithinNodes (length marks.old)) items.now }
    requires links { AreLinks items.now links.now }
    requires arranged { IsArranged items.now marks.old order.old free }
    requires root { root.0 < length marks.old }
    requires new { mark_at marks.old root.0 ≡ Mark.New }
    ensures { IsExplored items.now marks.old marks.new order.new path.new root.0 result }
{
    let mut depth: u32 = 0;
    marks[root.0 as usize] = Mark::Open(0);
    let mut top = Top {
        node: root,
        next: links.first(root),
    };
    'search: loop {
        match advance(items, links, marks, top) {
            Step::Enter(item) => {
                path[depth as usize] = item;
                depth += 1;
                let node = items[item.0 as usize].to;
                marks[node.0 as usize] = Mark::Open(depth);
                top = Top {
                    node,
                    next: links.first(node),
                };
            }
            Step::Ring(item, start) => {
                path[depth as usize] = item;
                return Err(Span {
                    from: start as usize,
                    to: depth as usize + 1,
                });
            }
            Step::Close => {
                free -= 1;
                order[free as usize] = top.node;
                marks[top.node.0 as usize] = Mark::Placed(free);
                if depth == 0 {
                    return Ok(free);
                }
                depth -= 1;
                let item = path[depth as usize];
                top = Top {
                    node: items[item.0 as usize].from,
                    next: links.next(item),
                };
            }
        }
    }
}

/// Places every node in the order, or answers where a ring stands on the way.
fn arrange(
    items: &[Item],
    links: &Links,
    marks: &mut [Mark],
    order: &mut [NodeId],
    path: &mut [ItemId],
) -> Option<Span>
    requires small { length marks.old < 2 ^ 32 }
    requires order { length order.old ≡ length marks.old }
    requires path { length path.old ≡ length marks.old }
    requires room { length marks.old ≤ length links.now.first }
    requires within { All (IsWithinNodes (length marks.old)) items.now }
    requires links { AreLinks items.now links.now }
    requires new { AreNew marks.old }
    ensures { IsSearched items.now order.new path.new result }
{
    let nodes = marks.len() as u32;
    let mut free = nodes;
    for root in 0..nodes {
        if let Mark::New = marks[root as usize] {
            match explore(items, links, marks, order, path, free, NodeId(root)) {
                Ok(left) => free = left,
                Err(ring) => return Some(ring),
            }
        }
    }
    None
}

/// The place of the least item number.
fn least_place(ring: &[ItemId]) -> usize
    requires { 0 < length ring.now }
    ensures { IsLeastPlace ring.now result }
{
    let mut least = 0;
    for (place, item) in ring.iter().enumerate() {
        if item.0 < ring[least].0 {
            least = place;
        }
    }
    least
}

/// Turns a ring so that the least item number comes first.
fn turn(ring: &mut [ItemId])
    requires { 0 < length ring.old }
    ensures { IsTurned ring.old ring.new }
{
    let place = least_place(ring);
    ring.rotate_left(place);
}

/// Arranges this many nodes at the beginning of the order, or answers where a ring stands on the way.
///
/// The ring begins with its least item number.
fn search(
    items: &[Item],
    links: &Links,
    nodes: usize,
    marks: &mut [Mark],
    order: &mut [NodeId],
    path: &mut [ItemId],
) -> Option<Span>
    requires small { nodes < 2 ^ 32 }
    requires marks { nodes ≤ length marks.old }
    requires order { nodes ≤ length order.old }
    requires path { nodes ≤ length path.old }
    requires room { nodes ≤ length links.now.first }
    requires within { All (IsWithinNodes nodes) items.now }
    requires links { AreLinks items.now links.now }
    ensures { IsFound items.now nodes order.new path.new result }
{
    let marks = &mut marks[..nodes];
    clear(marks);
    let ring = arrange(items, links, marks, &mut order[..nodes], &mut path[..nodes])?;
    turn(&mut path[ring.from..ring.to]);
    Some(ring)
}
