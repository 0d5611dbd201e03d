ghost use Rattle.std.specs.Prelude.{◌≡◌, ◌*◌, ◌<◌, ◌^◌, length, IfOk};
ghost use Rattle.residual.specs.Arcs.{JoinBelow};
ghost use Rattle.residual.specs.Leaving.{AreListed};

use crate::arcs::Arc;
use arc_lists::ArcLists;
use std::alloc::{AllocError, Global};

/// The keys of the residual arcs that leave each node: an arc leaves the node it comes from, its reverse the node it leads to.
pub fn lists_of(alloc: Global, nodes: usize, arcs: &[Arc]) -> Result<ArcLists, AllocError>
    requires nodes { JoinBelow nodes arcs.now }
    requires few { length arcs.now < 2 ^ 32 }
    ensures { IfOk result (λ lists. AreListed arcs.now lists nodes (2 * length arcs.now)) }
{
    let mut lists = ArcLists::new(alloc, nodes)?;
    for arc in 0..arcs.len() {
        lists.push(arcs[arc].from, 2 * arc)?;
        lists.push(arcs[arc].to, 2 * arc + 1)?;
    }
    Ok(lists)
}
