ghost use Rattle.std.specs.Prelude.{◌≡◌, ◌<◌, ◌≤◌, ◌++◌, map, length, All, IfOk};
ghost use Rattle.bud_design.specs.TimingRules.{StartsInLeaf, IsSoundTiming, IsSoundGraph};
ghost use Rattle.timing_graph.specs.Graphs.{all_arcs, AreArcs, IsArcsAnswer};
ghost use Rattle.timing_graph.specs.GraphViews.{arc_of};

use crate::faults::GraphFault;
use crate::gathering::{gather, in_order};
use crate::graphs::{Arc, Graph};
use crate::ordering::order_of;
use bud_base::Listed;
use bud_design::Timing;
use flat_design::Flat;
use std::alloc::{AllocError, Global};

/// More arcs than this are answered as want of memory.
const MOST: usize = 2147483647;

/// The arcs of a design under a timing, in order of their pairs of pins.
fn arcs_in_order(alloc: Global, flat: &Flat, timing: &Timing) -> Result<Vec<Arc>, AllocError>
    requires timing { IsSoundTiming flat.now timing.now }
    requires leaves { All (StartsInLeaf flat.now) timing.now.pairs }
    ensures { IfOk result (λ arcs. AreArcs flat.now timing.now (map arc_of arcs.items)) }
{
    let gathered = gather(alloc, flat.pins(), flat.wires(), timing)?;
    let sorted = in_order(gathered)?;
    Ok(sorted)
}

/// The timing graph of a design under a timing, or a cycle of its arcs.
///
/// An arc is a wire that doesn't end at a clock pin, or a pair; the home of a wire is its own, that of
/// a pair is its leaf. It takes time linear in pins, wires and pairs but for one sort of the arcs.
pub fn arcs(alloc: Global, flat: &Flat, timing: &Timing) -> Result<Graph, GraphFault>
    requires timing { IsSoundTiming flat.now timing.now }
    requires leaves { All (StartsInLeaf flat.now) timing.now.pairs }
    ensures answer { IsArcsAnswer flat.now timing.now result }
    ensures sound { IfOk result (λ graph. IsSoundGraph flat.now graph) }
{
    let Ok(arcs) = arcs_in_order(alloc, flat, timing) else {
        return Err(GraphFault::NoMemory);
    };
    if arcs.len() > MOST {
        return Err(GraphFault::NoMemory);
    }
    match order_of(alloc, flat.pin_count(), &arcs) {
        Ok(order) => Ok(Graph::of(Listed::from_vec(arcs), order)),
        Err(fault) => Err(fault),
    }
}
