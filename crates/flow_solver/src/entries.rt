ghost use Rattle.std.specs.Prelude.{◌≡◌, ◌<◌, length};
ghost use Rattle.flow_solver.specs.Entries.{entry_at, by_at, label_at};
ghost use Rattle.flow_solver.specs.Spreading.{taken_of, entries_of};

use bud_base::NodeId;
use search_heap::{Entry as Found, Search};

/// How a search reached a node that it took.
#[derive(Clone, Copy, Debug)]
pub struct Entry {
    /// How far the node is from the nearest with excess, in ps of reduced cost.
    pub distance: i64,
    /// The residual arc by which it was reached; none where the search began.
    pub by: Option<usize>,
    /// How many nodes were taken before it.
    pub place: usize,
}

/// What was found of a node, once it is taken.
fn taken_from(found: Option<Found>) -> Option<Entry>
    ensures { result ≡ taken_of found }
{
    match found {
        Some(found) => match found.place {
            Some(place) => Some(Entry {
                distance: found.distance,
                by: found.by,
                place,
            }),
            None => None,
        },
        None => None,
    }
}

/// How a node was reached, if it is taken.
fn entry_of(front: &Search, node: NodeId) -> Option<Entry>
    requires { node.0 < length front.now.entries }
    ensures { result ≡ entry_at (entries_of front.now.entries) node.0 }
{
    taken_from(front.reached(node))
}

/// The residual arc by which a node was reached.
pub fn arc_to(front: &Search, node: NodeId) -> Option<usize>
    requires { node.0 < length front.now.entries }
    ensures { result ≡ by_at (entries_of front.now.entries) node.0 }
{
    match entry_of(front, node) {
        Some(entry) => entry.by,
        None => None,
    }
}

/// The distance of a node that is taken, and for any other that of the node taken last.
pub fn label_to(front: &Search, last: i64, node: NodeId) -> i64
    requires { node.0 < length front.now.entries }
    ensures { result ≡ label_at (entries_of front.now.entries) last node.0 }
{
    match entry_of(front, node) {
        Some(entry) => entry.distance,
        None => last,
    }
}
