//! Each function does nothing, and its clause is the law.
ghost use Rattle.std.specs.Prelude.{◌≡◌, ℕ, ℤ, List, All};
ghost use Rattle.bud_design.specs.Designs.{Design, LeadsTo};
ghost use Rattle.bud_design.specs.DesignRules.{IsDesign};
ghost use Rattle.timing_laws.specs.Delays.{Interconnect, AreDelays};

/// Interconnects of a design that end on no ring of wires decide the delay of each wire: two choices
/// that give each the greatest of its rests are the same.
pub fn interconnects_decide_delays()
    ensures { (d : Design) (xs : List Interconnect) (f g : ℕ → ℤ) → IsDesign d → All (λ x. LeadsTo d 0 x.to x.to → ⊥) xs
        → AreDelays d xs f → AreDelays d xs g → (v : ℕ) → f v ≡ g v }
{}
