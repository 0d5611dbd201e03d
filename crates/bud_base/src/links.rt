ghost use Rattle.std.specs.Prelude.{◌≡◌, ◌≤◌, ◌<◌, ◌↔◌, IsTrue, None, length, slice_index_or, All, IfOk};
ghost use Rattle.bud_base.specs.Leaving.{AreLinks, LeavesBelow};

use crate::ids::{ItemId, NodeId};
use crate::problems::Item;
use std::alloc::{AllocError, Global};
use std::marker::Model;

/// The items that leave each node, by rising number: the first of a node, and the next after an item.
///
/// It is room for problems up to a size, and `fill` takes no memory.
#[derive(Debug, Drop)]
pub struct Links {
    first: Vec<Option<ItemId>>,
    next: Vec<Option<ItemId>>,
}

impl Model for Links {
    ghost use Rattle.bud_base.specs.LinkLists.{LinkLists};

    ghost Value = { LinkLists };

    ghost view = { λ links. record { first = links.first.items; next = links.next.items } };
}

impl Links {
    /// Room for this many nodes and items.
    pub fn new(alloc: Global, nodes: u32, items: usize) -> Result<Links, AllocError>
        ensures nodes { IfOk result (λ links. length links.first ≡ nodes) }
        ensures items { IfOk result (λ links. length links.next ≡ items) }
    {
        let first = vec![in alloc; None; nodes as usize]?;
        let next = vec![in alloc; None; items]?;
        Ok(Links { first, next })
    }

    /// Whether there is room for this many nodes and items.
    pub fn fits(&self, nodes: u32, items: usize) -> bool
        ensures { IsTrue result ↔ ((nodes ≤ length self.now.first) × (items ≤ length self.now.next)) }
    {
        nodes as usize <= self.first.len() && items <= self.next.len()
    }

    /// Links these items, in time linear in the room for nodes and the items.
    pub fn fill(&mut self, items: &[Item])
        requires room { length items.now ≤ length self.old.next }
        requires small { length items.now < 2147483648 }
        requires nodes { All (LeavesBelow (length self.old.first)) items.now }
        ensures links { AreLinks items.now self.new }
        ensures nodes { length self.new.first ≡ length self.old.first }
        ensures items { length self.new.next ≡ length self.old.next }
    {
        for head in self.first.iter_mut() {
            *head = None;
        }
        let mut low = items.len();
        while low > 0 {
            low -= 1;
            let node = items[low].from.0 as usize;
            self.next[low] = self.first[node];
            self.first[node] = Some(ItemId(low as u32));
        }
    }

    /// The first item that leaves the node.
    pub fn first(&self, node: NodeId) -> Option<ItemId>
        requires { node.0 < length self.now.first }
        ensures { result ≡ slice_index_or self.now.first node.0 None }
    {
        self.first[node.0 as usize]
    }

    /// The next item after this one that leaves the same node.
    pub fn next(&self, item: ItemId) -> Option<ItemId>
        requires { item.0 < length self.now.next }
        ensures { result ≡ slice_index_or self.now.next item.0 None }
    {
        self.next[item.0 as usize]
    }
}
