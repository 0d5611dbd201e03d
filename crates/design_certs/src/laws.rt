ghost use Rattle.std.specs.Prelude.{◌≡◌, ℕ, ◌<◌, ◌^◌, length};
ghost use Rattle.bud_design.specs.declared.layers.Layered.{Layered};
ghost use Rattle.bud_design.specs.declared.policies.Policy.{Policy};
ghost use Rattle.bud_design.specs.Layers.{IsLayering};
ghost use Rattle.bud_design.specs.TimingPaths.{View};
ghost use Rattle.design_certs.specs.DesignCerts.{IsOfDesign, item_class, class_of_item};

/// What the lines of certificates rest on: a layering has fewer than 2^32 classes, and an item's class is that of its
/// first node.
pub fn layered_classes()
    ensures few { (w : View) (policy : Policy) (layered : Layered) → IsLayering w policy layered → IsOfDesign layered w.design
        → length layered.classes < 2 ^ 32 }
    ensures items { (w : View) (policy : Policy) (layered : Layered) → IsLayering w policy layered → IsOfDesign layered w.design
        → (i : ℕ) → i < length layered.problem.items → class_of_item layered i ≡ item_class layered i }
{}
