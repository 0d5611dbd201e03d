//! Laws of relations, classes and requirements. Each function does nothing, and its clause is the law.
ghost use Rattle.std.specs.Prelude.{◌≡◌, ◌++◌, ◌∷◌, [], List, ℕ, ℤ, true, nat_lt, AllPairs};
ghost use Rattle.bud_base.specs.declared.ids.PinId.{PinId};
ghost use Rattle.bud_syntax.specs.declared.edges.Edge.{Edge};
ghost use Rattle.bud_design.specs.Clocks.{IsSoundClock, IsRelation, relation};
ghost use Rattle.bud_design.specs.Exceptions.{AreSteps, steps, class_of, class_at, class_requirement, requirement};
ghost use Rattle.bud_design.specs.declared.clocks.Clock.{Clock};
ghost use Rattle.bud_design.specs.declared.clocks.Launch.{Launch};
ghost use Rattle.bud_design.specs.declared.clocks.Capture.{Capture};
ghost use Rattle.bud_design.specs.declared.clocks.Constraints.{Constraints};

/// The relation of sound clocks is the least positive time between their edges, and the only one.
pub fn relation_is_least()
    ensures least { (launch capture : Clock) (edge at : Edge) → IsSoundClock launch → IsSoundClock capture
        → IsRelation launch edge capture at (relation launch edge capture at) }
    ensures only { (launch capture : Clock) (edge at : Edge) (time : ℤ) → IsSoundClock launch → IsSoundClock capture
        → IsRelation launch edge capture at time → time ≡ relation launch edge capture at }
{}

/// The requirement of a launch, a path from it and a capture is that of their class.
pub fn class_decides_requirement()
    ensures { (all : Constraints) (l : Launch) (vs : List ℕ) (x : Capture)
        → AllPairs (λ e f. nat_lt e.number f.number ≡ true) all.exceptions
        → class_requirement all (class_of all l vs) x ≡ requirement all l vs x }
{}

/// The class of a path with one pin more is that of the path, taken on to the pin.
pub fn class_goes_on()
    ensures { (all : Constraints) (l : Launch) (vs : List ℕ) (v : ℕ)
        → AllPairs (λ e f. nat_lt e.number f.number ≡ true) all.exceptions
        → class_of all l (vs ++ v ∷ []) ≡ class_at all (class_of all l vs) v }
{}

/// The steps are the greatest number of groups, from the first on, that the pins pass in turn.
pub fn steps_are_greatest()
    ensures { (vs : List ℕ) (groups : List (List PinId)) → AreSteps vs groups (steps vs groups) }
{}
