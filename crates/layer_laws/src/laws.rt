ghost use Rattle.std.specs.Prelude.{◌≡◌, ℤ, List};
ghost use Rattle.bud_plans.specs.Budgets.{AreBest};
ghost use Rattle.bud_design.specs.Correspondences.{Correspond};
ghost use Rattle.bud_design.specs.Layers.{IsLayering};
ghost use Rattle.bud_design.specs.TimingPaths.{View};
ghost use Rattle.bud_design.specs.declared.layers.Layered.{Layered};
ghost use Rattle.bud_design.specs.declared.policies.Policy.{Policy};
ghost use Rattle.layer_laws.specs.DesignBudgets.{AreBestOfDesign};

/// A design has one layering under a policy.
pub fn one_layering()
    ensures { (w : View) (policy : Policy) (a b : Layered) → IsLayering w policy a → IsLayering w policy b → a ≡ b }
{}

/// Budgets are best over the paths of a layering's problem exactly where they are best over the design's constrained paths.
pub fn best_over_designs()
    ensures design { (w : View) (layered : Layered) (budgets : List ℤ) → Correspond w layered → AreBest layered.problem budgets → AreBestOfDesign w layered budgets }
    ensures problem { (w : View) (layered : Layered) (budgets : List ℤ) → Correspond w layered → AreBestOfDesign w layered budgets → AreBest layered.problem budgets }
{}
