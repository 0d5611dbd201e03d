//! Each function does nothing, and its clause is the law.
ghost use Rattle.std.specs.Prelude.{◌≡◌, ℕ, ℤ, List, [], ◌∷◌, length, All, Contains, None, Ok};
ghost use Rattle.bud_syntax.specs.Ranges.{IsReadCommand};
ghost use Rattle.bud_design.specs.declared.clocks.Constraints.{Constraints};
ghost use Rattle.bud_design.specs.declared.layers.Layered.{Layered};
ghost use Rattle.bud_design.specs.declared.policies.NumberedCommand.{NumberedCommand};
ghost use Rattle.bud_design.specs.declared.policies.Policy.{Policy};
ghost use Rattle.bud_design.specs.declared.timings.Timing.{Timing};
ghost use Rattle.bud_design.specs.Arcs.{Arc};
ghost use Rattle.bud_design.specs.Designs.{Design};
ghost use Rattle.bud_plans.specs.Budgets.{AreWithinBounds, SuitBudgets};
ghost use Rattle.clock_reach.specs.Reached.{AreReached};
ghost use Rattle.requirements.specs.Constraining.{AreConstraints};
ghost use Rattle.block_theory.specs.BlockFiles.{block_commands, numbered_from};
ghost use Rattle.block_theory.specs.BlockPorts.{Context};
ghost use Rattle.block_theory.specs.Blocks.{IsBlock, AreBlocks, through_inside};
ghost use Rattle.block_theory.specs.BlockValues.{LieBetween, value_past, AreWritable};
ghost use Rattle.block_theory.specs.Composition.{BlockFile, places_of, IsWrittenFor, AreFilesOf};
ghost use Rattle.block_theory.specs.Meeting.{Numbers, subject_with};
ghost use Rattle.block_theory.specs.Pieces.{PieceLaw};
ghost use Rattle.block_laws.specs.LayeredDesigns.{IsLayeredDesign};
ghost use Rattle.block_pieces.specs.Reads.{ReadsAsMeant};

/// A block's file is accepted of the block's design, and its commands say what the file means.
pub fn block_files_read_as_meant()
    ensures { (x : Context) (arcs : List Arc) (commands : List NumberedCommand) (policy : Policy) (arrivals : List ℤ) → IsLayeredDesign x.design x.timing arcs commands x.all policy x.layered
        → IsBlock x.design x.block → through_inside x.design (x.block ∷ []) x.all.exceptions ≡ None → AreReached x.design 0 x.all.clocks x.reached → ReadsAsMeant x arrivals }
{}

/// At any setup amounts it gives the block's design constraints.
pub fn block_files_are_accepted()
    ensures { (x : Context) (arcs : List Arc) (commands : List NumberedCommand) (policy : Policy) (arrivals : List ℤ) (n : Numbers) → IsLayeredDesign x.design x.timing arcs commands x.all policy x.layered
        → IsBlock x.design x.block → through_inside x.design (x.block ∷ []) x.all.exceptions ≡ None → AreReached x.design 0 x.all.clocks x.reached → length n.amounts ≡ length x.timing.checks
        → (block : Constraints) × AreConstraints (subject_with x.design x.block x.timing n) (numbered_from 1 (block_commands x arrivals)) block }
{}

/// Under them a path is constrained exactly where it is a piece of a constrained path of the whole design, with the piece's room.
pub fn block_files_mean_pieces()
    ensures { (x : Context) (arcs : List Arc) (commands : List NumberedCommand) (policy : Policy) (arrivals : List ℤ) → IsLayeredDesign x.design x.timing arcs commands x.all policy x.layered
        → IsBlock x.design x.block → through_inside x.design (x.block ∷ []) x.all.exceptions ≡ None → AreReached x.design 0 x.all.clocks x.reached → PieceLaw x arcs commands arrivals }
{}

/// The files that arrivals give blocks are accepted, they compose, and the budgets that the arrivals suit meet each of them.
pub fn block_files_compose()
    ensures { (d : Design) (t : Timing) (arcs : List Arc) (commands : List NumberedCommand) (all : Constraints) (policy : Policy) (layered : Layered) (budgets arrivals : List ℤ) (files : List BlockFile)
        → IsLayeredDesign d t arcs commands all policy layered → SuitBudgets layered.problem budgets arrivals
        → AreBlocks d (places_of files) → through_inside d (places_of files) all.exceptions ≡ None
        → All (IsWrittenFor d t all layered arrivals) files → AreFilesOf d t arcs commands layered budgets files }
{}

/// Where no value of the blocks is past the limit, each number of a block's file is within the range of what is read, for arrivals
/// between the earliest and the latest.
pub fn block_files_are_in_range()
    ensures { (x : Context) (arcs : List Arc) (commands : List NumberedCommand) (policy : Policy) (early late arrivals : List ℤ) (blocks : List ℕ) → IsLayeredDesign x.design x.timing arcs commands x.all policy x.layered
        → IsBlock x.design x.block → through_inside x.design (x.block ∷ []) x.all.exceptions ≡ None → AreReached x.design 0 x.all.clocks x.reached
        → LieBetween x.layered.problem early arrivals late → value_past x.design x.all x.layered early late blocks ≡ None → Contains blocks x.block
        → All IsReadCommand (block_commands x arrivals) }
{}

/// Where files may be written for blocks, those that arrivals of a plan give keep their promises, and all their numbers are within
/// the range of what is read.
pub fn writable_files_hold()
    ensures promises { (d : Design) (t : Timing) (arcs : List Arc) (commands : List NumberedCommand) (all : Constraints) (policy : Policy) (layered : Layered) (budgets arrivals : List ℤ) (files : List BlockFile)
        → IsLayeredDesign d t arcs commands all policy layered → AreWithinBounds layered.problem budgets → SuitBudgets layered.problem budgets arrivals
        → AreBlocks d (places_of files) → AreWritable d all layered (places_of files) (Ok tt)
        → All (IsWrittenFor d t all layered arrivals) files → AreFilesOf d t arcs commands layered budgets files }
    ensures ranges { (d : Design) (t : Timing) (arcs : List Arc) (commands : List NumberedCommand) (all : Constraints) (policy : Policy) (layered : Layered) (budgets arrivals : List ℤ) (files : List BlockFile)
        → IsLayeredDesign d t arcs commands all policy layered → AreWithinBounds layered.problem budgets → SuitBudgets layered.problem budgets arrivals
        → AreBlocks d (places_of files) → AreWritable d all layered (places_of files) (Ok tt)
        → All (IsWrittenFor d t all layered arrivals) files → All (λ f. All (λ c. IsReadCommand c.command) f.commands) files }
{}
