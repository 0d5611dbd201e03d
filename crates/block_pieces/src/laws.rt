//! Each function does nothing, and its clause is the law.
ghost use Rattle.std.specs.Prelude.{◌≡◌, ℕ, ℤ, true, false, List, [], ◌∷◌, length, Some, None};
ghost use Rattle.bud_design.specs.Lists.{Lists};
ghost use Rattle.bud_design.specs.Orders.{capture_before};
ghost use Rattle.requirements.specs.Constraining.{IsCapture, AreConstraints};
ghost use Rattle.block_theory.specs.Meeting.{Numbers, subject_with};
ghost use Rattle.bud_design.specs.declared.policies.NumberedCommand.{NumberedCommand};
ghost use Rattle.bud_design.specs.declared.policies.Policy.{Policy};
ghost use Rattle.bud_design.specs.Arcs.{Arc};
ghost use Rattle.block_theory.specs.Pieces.{ArePieces, PieceLaw};
ghost use Rattle.block_pieces.specs.Reads.{ReadsAsMeant};
ghost use Rattle.block_laws.specs.LayeredDesigns.{IsLayeredDesign};
ghost use Rattle.block_laws.specs.Meeting.{with_captures, AskAlike};
ghost use Rattle.block_pieces.specs.BlockReadings.{IsBlockReading};
ghost use Rattle.bud_design.specs.declared.clocks.Capture.{Capture};
ghost use Rattle.bud_design.specs.declared.clocks.Constraints.{Constraints};
ghost use Rattle.bud_design.specs.declared.clocks.Launch.{Launch};
ghost use Rattle.bud_design.specs.declared.layers.Class.{Class};
ghost use Rattle.bud_design.specs.Clocks.{Reaches};
ghost use Rattle.bud_design.specs.Designs.{pin_at, is_inside};
ghost use Rattle.bud_design.specs.DesignRules.{IsDesign};
ghost use Rattle.bud_design.specs.Exceptions.{requirement, class_requirement};
ghost use Rattle.bud_design.specs.Layers.{class_number};
ghost use Rattle.clock_reach.specs.Reached.{AreSources, AreReached};
ghost use Rattle.block_theory.specs.BlockExceptions.{same_class};
ghost use Rattle.block_theory.specs.BlockPorts.{Context, class_clock};
ghost use Rattle.block_theory.specs.Blocks.{IsBlock, is_input_of, through_inside};
ghost use Rattle.block_theory.specs.BlockScopes.{block_clocks, block_scope, real_number};
ghost use Rattle.block_pieces.specs.BlockReach.{ComesFromTop};
ghost use Rattle.block_pieces.specs.Standing.{IsPortCaptureOf, IsCheckCaptureOf, LaunchesClass, HasFileParts, HasTable};

/// The clocks of a block's file reach a pin inside the block, other than its input bits, exactly where the clocks of the
/// top that they stand for reach it in the whole design.
pub fn block_clocks_reach()
    ensures inside { (x : Context) (c v : ℕ) → IsDesign x.design → IsBlock x.design x.block → AreReached x.design 0 x.all.clocks x.reached → AreSources x.design x.all.clocks
        → is_inside x.design.places x.block (pin_at x.design.pins v).place ≡ true → is_input_of x.design x.block v ≡ false → Reaches x.design 0 x.all.clocks c v
        → Reaches x.design x.block (block_clocks x) (real_number x c) v }
    ensures only { (x : Context) (k v : ℕ) → IsDesign x.design → IsBlock x.design x.block → AreReached x.design 0 x.all.clocks x.reached → AreSources x.design x.all.clocks
        → Reaches x.design x.block (block_clocks x) k v → ComesFromTop x k v }
{}

/// The table of requirements of a block's file. A launch that stands for a class is required one period on at the output
/// bits in this class, nothing at those in any other, and at each data pin what the top requires of the class.
pub fn table_of_requirements()
    ensures own { (x : Context) (block : Constraints) (l : Launch) (vs : List ℕ) (k : Class) (y : Capture) (j : ℕ) → HasFileParts x block → HasTable x
        → LaunchesClass x l k → IsPortCaptureOf x y j → class_number x.layered.classes j ≡ k → requirement block l vs y ≡ Some (class_clock x.all x.layered j).period }
    ensures other { (x : Context) (block : Constraints) (l : Launch) (vs : List ℕ) (k : Class) (y : Capture) (j : ℕ) → HasFileParts x block → HasTable x
        → LaunchesClass x l k → IsPortCaptureOf x y j → same_class (class_number x.layered.classes j) k ≡ false → requirement block l vs y ≡ None }
    ensures checks { (x : Context) (block : Constraints) (l : Launch) (vs : List ℕ) (k : Class) (y z : Capture) → HasFileParts x block → HasTable x
        → LaunchesClass x l k → IsCheckCaptureOf x y z → requirement block l vs y ≡ class_requirement x.all k z }
{}

/// Under a block's file a path is constrained exactly where it is a piece of a top path, with the piece's room.
pub fn block_paths_are_pieces()
    ensures { (x : Context) (arcs : List Arc) (commands : List NumberedCommand) (policy : Policy) (captures : List Capture) (elsewhere : List ℕ) (arrivals : List ℤ) (block : Constraints)
        → IsLayeredDesign x.design x.timing arcs commands x.all policy x.layered → IsBlock x.design x.block → through_inside x.design (x.block ∷ []) x.all.exceptions ≡ None → HasTable x
        → AskAlike x.design x.all captures elsewhere → IsBlockReading x arrivals (with_captures x.all captures) block
        → ArePieces x arcs arrivals (with_captures x.all captures) block }
{}

/// A layered design gives a block what the table of requirements asks.
pub fn layered_designs_have_tables()
    ensures { (x : Context) (arcs : List Arc) (commands : List NumberedCommand) (policy : Policy) → IsLayeredDesign x.design x.timing arcs commands x.all policy x.layered
        → IsBlock x.design x.block → through_inside x.design (x.block ∷ []) x.all.exceptions ≡ None → AreReached x.design 0 x.all.clocks x.reached → HasTable x }
{}

/// What the commands of a block's file say gives the block's design the launches and captures of the nodes at its port bits,
/// and at clock pins and data pins those of the whole design.
pub fn files_read_as_meant()
    ensures { (x : Context) (arcs : List Arc) (commands : List NumberedCommand) (policy : Policy) (n : Numbers) (arrivals : List ℤ) (block : Constraints) (file : List NumberedCommand) (captures : List Capture)
        → (given : IsLayeredDesign x.design x.timing arcs commands x.all policy x.layered) → IsBlock x.design x.block → through_inside x.design (x.block ∷ []) x.all.exceptions ≡ None
        → AreReached x.design 0 x.all.clocks x.reached → length n.amounts ≡ length x.timing.checks
        → (are : AreConstraints (subject_with x.design x.block x.timing n) file block) → are.scope ≡ block_scope x arrivals
        → Lists capture_before (IsCapture (subject_with x.design 0 x.timing n) given.constraints.scope) captures
        → IsBlockReading x arrivals (with_captures x.all captures) block }
{}

/// A block's file whose commands say what it means keeps the piece law, for any arrivals and setup amounts.
pub fn files_keep_the_piece_law()
    ensures { (x : Context) (arcs : List Arc) (commands : List NumberedCommand) (policy : Policy) (arrivals : List ℤ) → IsLayeredDesign x.design x.timing arcs commands x.all policy x.layered
        → IsBlock x.design x.block → through_inside x.design (x.block ∷ []) x.all.exceptions ≡ None → AreReached x.design 0 x.all.clocks x.reached → ReadsAsMeant x arrivals
        → PieceLaw x arcs commands arrivals }
{}
