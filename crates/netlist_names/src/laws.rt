ghost use Rattle.std.specs.Prelude.{◌≡◌, ℕ, List, All};
ghost use Rattle.bud_syntax.specs.declared.modules.Module.{Module};
ghost use Rattle.netlist_names.specs.Identifiers.{HasIdentifiers};
ghost use Rattle.verilog_reader.specs.Netlists.{Reads};

/// The names in a netlist that is read are identifiers of IEEE 1364: of graphic ASCII characters, at least one.
pub fn names_are_identifiers()
    ensures identifiers { (text : List ℕ) (modules : List Module) → Reads text modules → All HasIdentifiers modules }
{}
