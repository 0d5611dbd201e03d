ghost use Rattle.std.specs.Prelude.{◌≡◌, ℕ, ◌<◌, ◌≤◌, [], None, Some, length, slice_set, slice_get, IfOk};
ghost use Rattle.search_heap.specs.Clearing.{AreCleared, AreBlank};
ghost use Rattle.search_heap.specs.Entries.{entry_at, reached_by};
ghost use Rattle.search_heap.specs.Heaps.{near_at};
ghost use Rattle.search_heap.specs.Searches.{AreInOrder, IsEmptied, IsNearestAnswer, node_at};

use crate::entries::{Entry, Near};
use crate::offers::{reach_in, take_nearest};
use bud_base::NodeId;
use std::alloc::{AllocError, Global};
use std::marker::Model;

/// The entries of one search: how nodes were reached, and which were taken, the nearest first.
///
/// There is room for each node, so that only `new` takes memory. `restart` takes as long as there are entries, `reach` and `nearest`
/// as long as their number has digits.
#[derive(Debug, Drop)]
pub struct Search {
    entries: Vec<Option<Entry>>,
    /// The nodes whose entries wait, as a heap, in the first places.
    offers: Vec<Near>,
    /// Where the offer of each of these nodes is.
    places: Vec<usize>,
    waiting: usize,
    /// The nodes that were taken, in the first places.
    order: Vec<NodeId>,
    taken: usize,
}

impl Model for Search {
    ghost use Rattle.search_heap.specs.Searches.{Searched};

    ghost Value = { Searched };

    ghost use Rattle.search_heap.specs.Insides.{searched_of, IsKeeping};

    ghost view = { searched_of };

    ghost invariant = { IsKeeping };
}

/// Takes all entries away.
fn clear(entries: &mut [Option<Entry>])
    ensures none { (v : ℕ) → v < length entries.new → entry_at entries.new v ≡ None }
    ensures size { length entries.new ≡ length entries.old }
{
    for entry in entries.iter_mut() {
        *entry = None;
    }
}

/// As many places without an entry.
fn blank(alloc: Global, nodes: usize) -> Result<Vec<Option<Entry>>, AllocError>
    ensures { IfOk result (λ entries. AreBlank entries.items nodes) }
{
    let mut entries = vec![in alloc; None; nodes]?;
    clear(&mut entries);
    Ok(entries)
}

/// Takes the entries of the first offers away.
fn clear_waiting(entries: &mut [Option<Entry>], offers: &[Near], waiting: usize)
    requires count { waiting ≤ length offers.now }
    requires nodes { (k : ℕ) → k < waiting → (near_at offers.now k).node.0 < length entries.old }
    ensures { AreCleared entries.old entries.new (λ k. (near_at offers.now k).node.0) waiting }
{
    for place in 0..waiting {
        entries[offers[place].node.0 as usize] = None;
    }
}

/// Takes the entries of the first nodes away.
fn clear_taken(entries: &mut [Option<Entry>], order: &[NodeId], taken: usize)
    requires count { taken ≤ length order.now }
    requires nodes { (k : ℕ) → k < taken → node_at order.now k < length entries.old }
    ensures { AreCleared entries.old entries.new (node_at order.now) taken }
{
    for place in 0..taken {
        entries[order[place].0 as usize] = None;
    }
}

impl Search {
    /// No entries yet, and room for this many nodes.
    pub fn new(alloc: Global, nodes: usize) -> Result<Search, AllocError>
        ensures size { IfOk result (λ search. length search.entries ≡ nodes) }
        ensures none { IfOk result (λ search. (v : ℕ) → entry_at search.entries v ≡ None) }
        ensures taken { IfOk result (λ search. search.taken ≡ []) }
    {
        let entries = blank(alloc, nodes)?;
        let offers = vec![in alloc; Near {
            node: NodeId(0),
            distance: 0
        }; nodes]?;
        let places = vec![in alloc; 0usize; nodes]?;
        let order = vec![in alloc; NodeId(0); nodes]?;
        Ok(Search {
            entries,
            offers,
            places,
            waiting: 0,
            order,
            taken: 0,
        })
    }

    /// Begins anew, without entries.
    pub fn restart(&mut self)
        ensures { IsEmptied self.old self.new }
    {
        clear_waiting(&mut self.entries, &self.offers, self.waiting);
        clear_taken(&mut self.entries, &self.order, self.taken);
        self.waiting = 0;
        self.taken = 0;
    }

    /// Tells that a node can be reached over an arc, or that the search begins there, at a distance in ps.
    ///
    /// An entry that is as near or that was taken stays.
    pub fn reach(&mut self, node: NodeId, distance: i64, by: Option<usize>)
        requires { node.0 < length self.old.entries }
        ensures { self.new ≡ record self.old { entries = slice_set self.old.entries node.0 (Some (reached_by (entry_at self.old.entries node.0) distance by)) } }
    {
        let near = Near { node, distance };
        self.waiting = reach_in(
            &mut self.entries,
            &mut self.offers,
            &mut self.places,
            self.waiting,
            near,
            by,
        );
    }

    /// Takes the nearest of the nodes whose entries wait.
    pub fn nearest(&mut self) -> Option<Near>
        ensures { IsNearestAnswer self.old self.new result }
    {
        if self.waiting == 0 {
            return None;
        }
        let near = take_nearest(
            &mut self.entries,
            &mut self.offers,
            &mut self.places,
            self.waiting,
            self.taken,
        );
        self.waiting -= 1;
        self.order[self.taken] = near.node;
        self.taken += 1;
        Some(near)
    }

    /// How a node was reached.
    pub fn reached(&self, node: NodeId) -> Option<Entry>
        requires { node.0 < length self.now.entries }
        ensures entry { result ≡ entry_at self.now.entries node.0 }
        ensures ordered { AreInOrder self.now.entries self.now.taken }
    {
        self.entries[node.0 as usize]
    }

    /// The node that was taken at a place, from 0, since the search began.
    pub fn taken(&self, place: usize) -> Option<NodeId>
        ensures node { result ≡ slice_get self.now.taken place }
        ensures ordered { AreInOrder self.now.entries self.now.taken }
    {
        if place < self.taken {
            Some(self.order[place])
        } else {
            None
        }
    }

    /// How many nodes were taken since the search began.
    pub fn taken_count(&self) -> usize
        ensures count { result ≡ length self.now.taken }
        ensures ordered { AreInOrder self.now.entries self.now.taken }
    {
        self.taken
    }
}
