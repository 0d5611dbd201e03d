//! Each function does nothing, and its clause is the law.
ghost use Rattle.std.specs.Prelude.{◌≡◌, List, All};
ghost use Rattle.bud_syntax.specs.declared.delays.SdfRow.{SdfRow};
ghost use Rattle.bud_design.specs.declared.timings.Timing.{Timing};
ghost use Rattle.bud_design.specs.Arcs.{Arc};
ghost use Rattle.bud_design.specs.Designs.{Design, pin_at};
ghost use Rattle.bud_design.specs.DesignRules.{IsDesign};
ghost use Rattle.bud_design.specs.TimingRules.{IsSoundTiming};
ghost use Rattle.delay_bind.specs.Bindings.{IsBound};
ghost use Rattle.timing_graph.specs.Graphs.{AreArcs};
ghost use Rattle.block_laws.specs.Standing.{HaveHomes};

/// A setup check stands at one leaf, with its clock pin.
pub fn checks_stand_together()
    ensures { (d : Design) (rows : List SdfRow) (t : Timing) → IsBound d rows t → All (λ c. (pin_at d.pins c.pin.0).place ≡ (pin_at d.pins c.clock.0).place) t.checks }
{}

/// Each arc has a home: a wire's holds it, and any other arc's is the leaf of both its pins.
pub fn arcs_have_homes()
    ensures { (d : Design) (rows : List SdfRow) (t : Timing) (arcs : List Arc) → IsDesign d → IsSoundTiming d t → IsBound d rows t → AreArcs d t arcs → HaveHomes d arcs }
{}
