//! Each function does nothing, and its clause is the law.
ghost use Rattle.std.specs.Prelude.{◌≡◌, ℕ, ◌<◌, ◌≤◌, ◌^◌, Contains, true, length, List, [], ◌∷◌, ◌++◌, ℤ, false, map, All, AllPairs, Some, Ok};
ghost use Rattle.timing_scopes.specs.Resolving.{same_place};
ghost use Rattle.block_theory.specs.BlockExceptions.{Form, form_command, block_forms};
ghost use Rattle.block_theory.specs.BlockFiles.{numbered_from, input_amount, output_amount, input_delay, output_delay};
ghost use Rattle.block_names.specs.PartReadings.{IsReadForm, IsDelayNode, subject_of};
ghost use Rattle.bud_design.specs.declared.policies.NumberedCommand.{NumberedCommand};
ghost use Rattle.timing_objects.specs.Objects.{Subject};
ghost use Rattle.timing_scopes.specs.declared.scopes.Scope.{Scope};
ghost use Rattle.timing_scopes.specs.Resolving.{resolved, resolved_from};
ghost use Rattle.bud_design.specs.Clocks.{clock_at, clock_called};
ghost use Rattle.block_theory.specs.BlockClocks.{real_clocks, virtual_name};
ghost use Rattle.block_theory.specs.BlockPorts.{Context, node_at, port_classes};
ghost use Rattle.block_theory.specs.BlockScopes.{block_clocks, real_number, virtual_number, exceptions_from, delay_as};
ghost use Rattle.block_names.specs.ClockNames.{NamesDiffer};
ghost use Rattle.bud_design.specs.Designs.{Design, pin_at, is_pin_of, pin_name, named_pins, named_ports};
ghost use Rattle.bud_design.specs.DesignRules.{IsDesign};
ghost use Rattle.bud_design.specs.Names.{meaning};
ghost use Rattle.block_theory.specs.Blocks.{IsBlock, is_input_of, is_output_of};

/// In the design of a block the name of a pin means that pin, and the name of a port bit that bit alone.
pub fn pins_have_own_names()
    ensures pins { (d : Design) (b v : ℕ) → IsDesign d → IsBlock d b → v < length d.pins → is_pin_of d b v ≡ true → meaning (named_pins d b) (pin_name d b v) ≡ Some v }
    ensures ports { (d : Design) (b v : ℕ) → IsDesign d → IsBlock d b → v < length d.pins → (pin_at d.pins v).place ≡ b → meaning (named_ports d b) (pin_name d b v) ≡ Some (v ∷ []) }
{}

/// The names of the clocks that commands make differ.
pub fn clock_names_differ()
    ensures { (s : Subject) (commands : List NumberedCommand) (scope : Scope) → resolved s commands ≡ Ok scope → NamesDiffer scope.clocks }
{}

/// The clocks of a block's file have names that differ, and each means its clock.
pub fn block_clocks_have_own_names()
    ensures differ { (x : Context) → NamesDiffer x.all.clocks → length x.layered.classes ≤ 2 ^ 64 → NamesDiffer (block_clocks x) }
    ensures reals { (x : Context) (c : ℕ) → NamesDiffer x.all.clocks → length x.layered.classes ≤ 2 ^ 64 → Contains (real_clocks x) c
        → clock_called (block_clocks x) (clock_at x.all.clocks c).name ≡ Some (real_number x c) }
    ensures virtuals { (x : Context) (k : ℕ) → NamesDiffer x.all.clocks → length x.layered.classes ≤ 2 ^ 64 → Contains (port_classes x) k
        → clock_called (block_clocks x) (virtual_name x k) ≡ Some (virtual_number x k) }
{}

/// Where the clocks of a block's file are made, its exceptions are accepted, and mark what their parts say.
pub fn exceptions_read_as_meant()
    ensures forms { (x : Context) → All (IsReadForm x) (block_forms x) }
    ensures read { (x : Context) (scope : Scope) (number : ℕ) (forms : List Form) → IsDesign x.design → IsBlock x.design x.block → NamesDiffer x.all.clocks → length x.layered.classes ≤ 2 ^ 64
        → scope.clocks ≡ block_clocks x → All (IsReadForm x) forms
        → resolved_from (subject_of x) scope (numbered_from number (map (form_command x) forms)) ≡ Ok (record scope { exceptions = scope.exceptions ++ exceptions_from x number forms }) }
{}

/// Where the clocks of a block's file are made, its port delays are accepted, and each adds its own, since no two nodes have one
/// pin and one class.
pub fn port_delays_read_as_meant()
    ensures inputs { (x : Context) (arrivals : List ℤ) (nodes : List ℕ) (scope : Scope) (number : ℕ) → IsDesign x.design → IsBlock x.design x.block → NamesDiffer x.all.clocks → length x.layered.classes ≤ 2 ^ 64
        → scope.clocks ≡ block_clocks x → scope.inputs ≡ [] → All (IsDelayNode x) nodes → All (λ n. is_input_of x.design x.block (node_at x.layered.nodes n).pin.0 ≡ true) nodes
        → AllPairs (λ m k. same_place (delay_as x (input_amount arrivals) k) (delay_as x (input_amount arrivals) m) ≡ false) nodes
        → resolved_from (subject_of x) scope (numbered_from number (map (input_delay x arrivals) nodes)) ≡ Ok (record scope { inputs = map (delay_as x (input_amount arrivals)) nodes }) }
    ensures outputs { (x : Context) (arrivals : List ℤ) (nodes : List ℕ) (scope : Scope) (number : ℕ) → IsDesign x.design → IsBlock x.design x.block → NamesDiffer x.all.clocks → length x.layered.classes ≤ 2 ^ 64
        → scope.clocks ≡ block_clocks x → scope.outputs ≡ [] → All (IsDelayNode x) nodes → All (λ n. is_output_of x.design x.block (node_at x.layered.nodes n).pin.0 ≡ true) nodes
        → AllPairs (λ m k. same_place (delay_as x (output_amount x.all x.layered arrivals) k) (delay_as x (output_amount x.all x.layered arrivals) m) ≡ false) nodes
        → resolved_from (subject_of x) scope (numbered_from number (map (output_delay x arrivals) nodes)) ≡ Ok (record scope { outputs = map (delay_as x (output_amount x.all x.layered arrivals)) nodes }) }
{}
