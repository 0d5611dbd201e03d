//! Each function does nothing, and its clause is the law.
ghost use Rattle.std.specs.Prelude.{◌≡◌, List};
ghost use Rattle.bud_syntax.specs.declared.delays.SdfRow.{SdfRow};
ghost use Rattle.bud_design.specs.declared.timings.Timing.{Timing};
ghost use Rattle.bud_design.specs.Designs.{Design};
ghost use Rattle.bud_design.specs.DesignRules.{IsDesign};
ghost use Rattle.delay_bind.specs.Bindings.{IsBound};

/// A flat design and the rows of a delay file have at most one timing.
pub fn one_timing()
    ensures { (d : Design) (rows : List SdfRow) (t u : Timing) → IsDesign d → IsBound d rows t → IsBound d rows u → t ≡ u }
{}
