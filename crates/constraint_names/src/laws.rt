ghost use Rattle.std.specs.Prelude.{◌≡◌, List, All, true};
ghost use Rattle.bud_design.specs.declared.clocks.Constraints.{Constraints};
ghost use Rattle.bud_design.specs.declared.policies.NumberedCommand.{NumberedCommand};
ghost use Rattle.clock_names.specs.ClockNames.{HasClockName};
ghost use Rattle.requirements.specs.Constraining.{AreConstraints};
ghost use Rattle.sdc_reader.specs.Words.{is_clock_name};
ghost use Rattle.timing_objects.specs.Objects.{Subject};

/// Where each command gives its clock a name that a clock may have, the clocks of the constraints have such names.
pub fn constraints_have_names()
    ensures names { (s : Subject) (commands : List NumberedCommand) (all : Constraints)
        → All (λ c. HasClockName c.command) commands → AreConstraints s commands all → All (λ c. is_clock_name c.name ≡ true) all.clocks }
{}
