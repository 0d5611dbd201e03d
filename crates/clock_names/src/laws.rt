ghost use Rattle.std.specs.Prelude.{ℕ, List, All};
ghost use Rattle.bud_syntax.specs.declared.constraints.SdcFile.{SdcFile};
ghost use Rattle.clock_names.specs.ClockNames.{HasClockName};
ghost use Rattle.sdc_reader.specs.Files.{Reads};

/// In constraints that are read each clock has a name that a clock may have: one letter, digit or sign of the alphabet at
/// least, and nothing else, whether the name is given or that of its first source.
pub fn clocks_have_names()
    ensures names { (text : List ℕ) (file : SdcFile) → Reads text file → All HasClockName file.commands }
{}
