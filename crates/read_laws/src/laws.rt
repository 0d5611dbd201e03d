ghost use Rattle.std.specs.Prelude.{◌≡◌, ℕ, List, All};
ghost use Rattle.bud_syntax.specs.declared.modules.Module.{Module};
ghost use Rattle.elaborations.specs.Ports.{HasPortsOnce};
ghost use Rattle.verilog_reader.specs.Netlists.{Reads};

/// The names of the ports of a module that is read differ.
pub fn ports_stand_once()
    ensures once { (text : List ℕ) (modules : List Module) → Reads text modules → All HasPortsOnce modules }
{}
