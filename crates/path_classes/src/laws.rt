//! Laws of layerings. The function does nothing, and its clauses are the laws.
ghost use Rattle.std.specs.Prelude.{◌≡◌, ℕ, [], List};
ghost use Rattle.bud_base.specs.declared.problems.Item.{Item};
ghost use Rattle.bud_design.specs.ConstraintRules.{AreSoundConstraints};
ghost use Rattle.bud_design.specs.Correspondences.{Correspond};
ghost use Rattle.bud_design.specs.Layers.{IsLayering};
ghost use Rattle.bud_design.specs.Policies.{version_of};
ghost use Rattle.bud_design.specs.TimingPaths.{View};
ghost use Rattle.bud_design.specs.declared.layers.Layered.{Layered};
ghost use Rattle.bud_design.specs.declared.policies.Policy.{Policy};
ghost use Rattle.state_laws.specs.Views.{HasArcs};
ghost use Rattle.path_classes.specs.Layering.{HasParts};

/// What `layer_arcs` answers is the layering of a design with these arcs and constraints under a policy without lines,
/// and its paths are the design's constrained paths, one for one.
pub fn parts_are_the_layering()
    ensures layering { (w : View) (policy : Policy) (arcs : List Item) (layered : Layered) (pins : ℕ) → AreSoundConstraints pins w.all → HasArcs w arcs → policy.lines ≡ [] → version_of policy ≡ 1
        → HasParts arcs w.all 1 layered → IsLayering w policy layered }
    ensures paths { (w : View) (arcs : List Item) (layered : Layered) (pins : ℕ) → AreSoundConstraints pins w.all → HasArcs w arcs → HasParts arcs w.all 1 layered → Correspond w layered }
{}
