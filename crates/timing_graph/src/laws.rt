//! Laws of timing graphs. Each function does nothing, and its clause is the law.
ghost use Rattle.std.specs.Prelude.{◌≡◌, List, All};
ghost use Rattle.bud_base.specs.declared.ids.ArcId.{ArcId};
ghost use Rattle.bud_design.specs.declared.timings.Timing.{Timing};
ghost use Rattle.bud_design.specs.Arcs.{Arc as ArcSeen, Graph as GraphSeen, IsArcCycle};
ghost use Rattle.bud_design.specs.Designs.{Design};
ghost use Rattle.bud_design.specs.DesignRules.{IsDesign};
ghost use Rattle.bud_design.specs.TimingRules.{StartsInLeaf, IsSoundTiming, IsSoundGraph};
ghost use Rattle.timing_graph.specs.Graphs.{AreArcs, IsGraph};

/// A sound graph has no cycle, so a cycle is answered exactly where the arcs have one.
pub fn graphs_have_no_cycle()
    ensures { (d : Design) (g : GraphSeen) (ring : List ArcId) → IsSoundGraph d g → IsArcCycle g.arcs ring → ⊥ }
{}

/// A design under a timing has one list of arcs.
pub fn arcs_are_one_list()
    ensures { (d : Design) (t : Timing) (xs ys : List ArcSeen) → AreArcs d t xs → AreArcs d t ys → xs ≡ ys }
{}

/// Each arc of a sound design under a sound timing joins pins of the design, has a delay and belongs to a place.
pub fn graphs_are_sound()
    ensures { (d : Design) (t : Timing) (g : GraphSeen) → IsDesign d → IsSoundTiming d t → All (StartsInLeaf d) t.pairs
        → IsGraph d t g → IsSoundGraph d g }
{}
