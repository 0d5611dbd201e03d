//! Each function does nothing, and its clause is the law.
ghost use Rattle.std.specs.Prelude.{◌≡◌, ℕ, ℤ, true, false, List, [], ◌∷◌, All, None};
ghost use Rattle.bud_base.specs.declared.problems.Problem.{Problem};
ghost use Rattle.bud_design.specs.declared.clocks.Clock.{Clock};
ghost use Rattle.bud_design.specs.declared.clocks.Constraints.{Constraints};
ghost use Rattle.bud_design.specs.declared.layers.Class.{Class};
ghost use Rattle.bud_design.specs.Arcs.{Arc};
ghost use Rattle.bud_design.specs.Designs.{Design, pin_at, is_inside};
ghost use Rattle.bud_design.specs.DesignRules.{IsDesign};
ghost use Rattle.bud_design.specs.Exceptions.{class_at};
ghost use Rattle.bud_plans.specs.Budgets.{AreWithinBounds, SuitBudgets};
ghost use Rattle.block_theory.specs.BlockClocks.{prefix, begins_with};
ghost use Rattle.block_theory.specs.Blocks.{IsBlock, HasHome, is_input_of, is_output_of, through_inside};
ghost use Rattle.block_theory.specs.BlockValues.{AreExtremes, LieBetween};

/// No clock has a name that begins with the prefix of virtual clocks' names.
pub fn prefix_is_free()
    ensures { (clocks : List Clock) → All (λ c. begins_with (prefix clocks) c.name ≡ false) clocks }
{}

/// Arrivals that suit budgets within bounds lie between the earliest and the latest of each node.
pub fn suiting_arrivals_lie_between()
    ensures { (p : Problem) (budgets arrivals early late : List ℤ) → AreWithinBounds p budgets → SuitBudgets p budgets arrivals
        → AreExtremes p early late → LieBetween p early arrivals late }
{}

/// An arc inside a block has both pins inside it, and leaves no output bit and enters no input bit of the block.
pub fn arcs_inside_end_inside()
    ensures { (d : Design) (b : ℕ) (a : Arc) → IsDesign d → IsBlock d b → HasHome d a → is_inside d.places b a.home ≡ true
        → (is_inside d.places b (pin_at d.pins a.from).place ≡ true) × (is_inside d.places b (pin_at d.pins a.to).place ≡ true)
        × (is_output_of d b a.from ≡ false) × (is_input_of d b a.to ≡ false) }
{}

/// An arc outside a block leaves a pin inside it only at an output bit, and enters one only at an input bit.
pub fn arcs_outside_cross_ports()
    ensures { (d : Design) (b : ℕ) (a : Arc) → IsDesign d → IsBlock d b → HasHome d a → is_inside d.places b a.home ≡ false
        → (is_inside d.places b (pin_at d.pins a.from).place ≡ true → is_output_of d b a.from ≡ true)
        × (is_inside d.places b (pin_at d.pins a.to).place ≡ true → is_input_of d b a.to ≡ true) }
{}

/// Where no through pin is a port bit of a block or lies inside it, no class changes at a pin inside.
pub fn classes_stay_inside()
    ensures { (d : Design) (b v : ℕ) (all : Constraints) (k : Class) → through_inside d (b ∷ []) all.exceptions ≡ None
        → is_inside d.places b (pin_at d.pins v).place ≡ true → class_at all k v ≡ k }
{}
