ghost use Rattle.std.specs.Prelude.{◌≡◌, ◌<◌, ◌^◌, ◌++◌, ℕ, List, All, length, map, decimal, true};
ghost use Rattle.std.specs.List.{list_all};
ghost use Rattle.bud_syntax.specs.declared.constraints.Object.TheVariants.{Ports, Pins, Clocks};
ghost use Rattle.bud_design.specs.Designs.{Design, place_at, pin_name};
ghost use Rattle.bud_design.specs.DesignRules.{HasPrintedNames};
ghost use Rattle.bud_design.proofs.NameLaws.{IsShort};
ghost use Rattle.sdc_reader.specs.Words.{is_clock_name};
ghost use Rattle.sdc_writer.specs.Printable.{is_kept_name, are_written};

/// Where the names in a design are identifiers in printed form, the names of its pins below any place, and those of its
/// modules, stand for themselves in the braces of a constraints text: printing puts a backslash before each brace.
pub fn names_are_kept()
    ensures pins { (d : Design) (root v : ℕ) → HasPrintedNames d → All (λ x. IsShort x.bit) d.pins → v < length d.pins → is_kept_name (pin_name d root v) ≡ true }
    ensures modules { (d : Design) (p : ℕ) → HasPrintedNames d → p < length d.places → is_kept_name (place_at d.places p).«module» ≡ true }
{}

/// Ports, then pins, then clocks are written as they are, where their names stand for themselves in braces. The name of a
/// clock does, and with a number behind it it is the name of a clock again.
pub fn objects_are_written()
    ensures objects { (ports pins clocks : List (List ℕ)) → list_all is_kept_name ports ≡ true → list_all is_kept_name pins ≡ true → list_all is_kept_name clocks ≡ true
        → are_written (map (λ name. Ports name) ports ++ (map (λ name. Pins name) pins ++ map (λ name. Clocks name) clocks)) ≡ true }
    ensures clocks { (name : List ℕ) → is_clock_name name ≡ true → is_kept_name name ≡ true }
    ensures numbered { (name : List ℕ) (n : ℕ) → is_clock_name name ≡ true → n < 2 ^ 64 → is_clock_name (name ++ decimal n) ≡ true }
{}
