//! Laws of elaboration. Each function does nothing, and its clause is the law.
ghost use Rattle.std.specs.Prelude.{◌≡◌, ◌<◌, ◌^◌, ℕ, List, Option, Result, Ok, All};
ghost use Rattle.bud_syntax.specs.declared.modules.Module.{Module};
ghost use Rattle.bud_design.specs.Designs.{Design};
ghost use Rattle.bud_design.specs.DesignRules.{IsDesign};
ghost use Rattle.bud_design.proofs.NameLaws.{IsShort};
ghost use Rattle.elaborations.specs.Elaborations.{Built, elaborated, IsFlatDesign};
ghost use Rattle.elaborations.specs.Ports.{HasPortsOnce};
ghost use Rattle.elaborations.specs.Walks.{IsInstanceTree};

/// The places of an elaborated netlist are its tree of instances, each place before those in it, and its pins are the
/// bits of their ports.
pub fn instances_make_a_tree()
    ensures tree { (modules : List Module) (top : Option (List ℕ)) (built : Built)
        → elaborated modules top ≡ Ok built → IsInstanceTree modules built.places built.pins }
{}

/// An elaborated netlist with its wires is a flat design, where each module lists each port once.
pub fn elaborated_netlist_is_a_design()
    ensures design { (modules : List Module) (top : Option (List ℕ)) (d : Design)
        → All HasPortsOnce modules → All (λ v. IsShort v.bit) d.pins → IsFlatDesign modules top d → IsDesign d }
{}

/// A netlist has one flat design.
pub fn one_design()
    ensures same { (modules : List Module) (top : Option (List ℕ)) (d e : Design)
        → IsFlatDesign modules top d → IsFlatDesign modules top e → d ≡ e }
{}
