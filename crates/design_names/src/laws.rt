ghost use Rattle.std.specs.Prelude.{◌≡◌, ◌<◌, ℕ, List, Option, All, length, true};
ghost use Rattle.bud_syntax.specs.declared.modules.Module.{Module};
ghost use Rattle.bud_design.specs.Designs.{Design, pin_name};
ghost use Rattle.bud_design.specs.DesignRules.{is_identifier};
ghost use Rattle.bud_design.proofs.NameLaws.{IsShort};
ghost use Rattle.elaborations.specs.Elaborations.{IsFlatDesign};
ghost use Rattle.netlist_names.specs.Identifiers.{HasIdentifiers};

/// Where the names in a netlist are identifiers, the printed names of its design's pins are of graphic characters, at
/// least one: so a name may stand as a field of a line.
pub fn pin_names_are_graphic()
    ensures graphic { (modules : List Module) (top : Option (List ℕ)) (d : Design) (v : ℕ)
        → All HasIdentifiers modules → All (λ x. IsShort x.bit) d.pins → IsFlatDesign modules top d → v < length d.pins → is_identifier (pin_name d 0 v) ≡ true }
{}
