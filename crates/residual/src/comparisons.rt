ghost use Rattle.std.specs.Prelude.{◌≡◌, ℕ, ◌+◌, ◌-ℤ◌, ◌<◌, ◌≤◌, ◌↔◌, pos, length, IsTrue};
ghost use Rattle.bud_base.specs.Paths.{item_at, start_at, end_at};
ghost use Rattle.residual.specs.Arcs.{arc_at, limited_arc, open_arc, start_arc, end_arc};
ghost use Rattle.residual.specs.Bounds.{IsSmall};
ghost use Rattle.residual.specs.Comparisons.{AreFrom, HaveSmallCosts};

use crate::arcs::{Arc, FULL};
use bud_base::{End, Item, NodeId, Start};

/// Whether an arc joins these nodes, and has this cost with its sign turned and this limit.
fn is_arc(arc: Arc, from: NodeId, to: NodeId, negated: i64, limit: i128) -> bool
    requires { IsSmall arc.cost }
    ensures { IsTrue result ↔ (arc ≡ record { from = from; to = to; cost = pos 0 -ℤ negated; limit = limit }) }
{
    arc.from.0 == from.0 && arc.to.0 == to.0 && -arc.cost == negated && arc.limit == limit
}

/// Whether an arc is that of an item with room for its weight.
fn is_limited_of(arc: Arc, item: &Item) -> bool
    requires { IsSmall arc.cost }
    ensures { IsTrue result ↔ (arc ≡ limited_arc item.now) }
{
    is_arc(
        arc,
        item.from,
        item.to,
        item.greatest,
        i128::from(item.weight),
    )
}

/// Whether an arc is that of an item without limit.
fn is_open_of(arc: Arc, item: &Item) -> bool
    requires { IsSmall arc.cost }
    ensures { IsTrue result ↔ (arc ≡ open_arc item.now) }
{
    is_arc(arc, item.from, item.to, item.least, FULL)
}

/// Whether an arc is that of a start, from the root.
fn is_start_of(arc: Arc, root: NodeId, start: &Start) -> bool
    requires { IsSmall arc.cost }
    ensures { IsTrue result ↔ (arc ≡ start_arc root.0 start.now) }
{
    is_arc(arc, root, start.node, start.offset, FULL)
}

/// Whether an arc is that of an end, to the root.
fn is_end_of(arc: Arc, root: NodeId, end: &End) -> bool
    ensures { IsTrue result ↔ (arc ≡ end_arc root.0 end.now) }
{
    arc.from.0 == end.node.0 && arc.to.0 == root.0 && arc.cost == end.require && arc.limit == FULL
}

/// Whether the first arcs are those of the items with room for their weights.
pub fn are_limited(arcs: &[Arc], items: &[Item]) -> bool
    requires small { HaveSmallCosts arcs.now }
    requires enough { length items.now ≤ length arcs.now }
    ensures { IsTrue result ↔ AreFrom arcs.now 0 (length items.now) (λ i. limited_arc (item_at items.now i)) }
{
    for i in 0..items.len() {
        if !is_limited_of(arcs[i], &items[i]) {
            return false;
        }
    }
    true
}

/// Whether the arcs from number `first` on are those of the items without limit.
pub fn are_open(arcs: &[Arc], first: usize, items: &[Item]) -> bool
    requires small { HaveSmallCosts arcs.now }
    requires enough { first + length items.now ≤ length arcs.now }
    ensures { IsTrue result ↔ AreFrom arcs.now first (length items.now) (λ i. open_arc (item_at items.now i)) }
{
    for i in 0..items.len() {
        if !is_open_of(arcs[first + i], &items[i]) {
            return false;
        }
    }
    true
}

/// Whether the arcs from number `first` on are those of the starts.
pub fn are_starts(arcs: &[Arc], first: usize, root: NodeId, starts: &[Start]) -> bool
    requires small { HaveSmallCosts arcs.now }
    requires enough { first + length starts.now ≤ length arcs.now }
    ensures { IsTrue result ↔ AreFrom arcs.now first (length starts.now) (λ s. start_arc root.0 (start_at starts.now s)) }
{
    for s in 0..starts.len() {
        if !is_start_of(arcs[first + s], root, &starts[s]) {
            return false;
        }
    }
    true
}

/// Whether the arcs from number `first` on are those of the ends.
pub fn are_ends(arcs: &[Arc], first: usize, root: NodeId, ends: &[End]) -> bool
    requires enough { first + length ends.now ≤ length arcs.now }
    ensures { IsTrue result ↔ AreFrom arcs.now first (length ends.now) (λ e. end_arc root.0 (end_at ends.now e)) }
{
    for e in 0..ends.len() {
        if !is_end_of(arcs[first + e], root, &ends[e]) {
            return false;
        }
    }
    true
}
