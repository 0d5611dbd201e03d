//! Each function does nothing, and its clause is the law.
ghost use Rattle.std.specs.Prelude.{◌≡◌, ℕ, ◌<◌, ℤ, ◌≤ℤ◌, List, [], ◌∷◌, length, All, Option, None};
ghost use Rattle.bud_base.specs.declared.ids.ArcId.{ArcId};
ghost use Rattle.bud_base.specs.declared.ids.ItemId.{ItemId};
ghost use Rattle.bud_design.specs.declared.clocks.Capture.{Capture};
ghost use Rattle.bud_design.specs.declared.clocks.Constraints.{Constraints};
ghost use Rattle.bud_design.specs.declared.layers.Class.{Class};
ghost use Rattle.bud_design.specs.declared.layers.Layered.{Layered};
ghost use Rattle.bud_design.specs.declared.policies.Policy.{Policy};
ghost use Rattle.bud_design.specs.declared.timings.Timing.{Timing};
ghost use Rattle.bud_design.specs.Arcs.{Arc};
ghost use Rattle.bud_design.specs.ConstraintRules.{AreSoundConstraints};
ghost use Rattle.bud_design.specs.Correspondences.{arc_of_item};
ghost use Rattle.bud_design.specs.Designs.{Design};
ghost use Rattle.bud_design.specs.DesignRules.{IsDesign};
ghost use Rattle.bud_design.specs.Layers.{IsLayering};
ghost use Rattle.bud_design.specs.TimingPaths.{MeetsUnder, sum_over};
ghost use Rattle.bud_flow.specs.Sums.{number_at};
ghost use Rattle.bud_plans.specs.Budgets.{SuitBudgets};
ghost use Rattle.bud_design.specs.Lists.{Lists};
ghost use Rattle.bud_design.specs.Orders.{capture_before};
ghost use Rattle.bud_design.specs.declared.policies.NumberedCommand.{NumberedCommand};
ghost use Rattle.requirements.specs.Constraining.{IsCapture};
ghost use Rattle.timing_scopes.specs.declared.scopes.Scope.{Scope};
ghost use Rattle.timing_scopes.specs.Resolving.{resolved};
ghost use Rattle.block_theory.specs.Composition.{AmountsKept, BlockFile, places_of, Compose, budget_numbers};
ghost use Rattle.block_theory.specs.Meeting.{Numbers, subject_with, MeetsCommands};
ghost use Rattle.block_laws.specs.LayeredDesigns.{IsLayeredDesign, FilesKeepPieces};
ghost use Rattle.block_theory.specs.Blocks.{IsBlock, AreBlocks, IsGlue, through_inside};
ghost use Rattle.block_theory.specs.Pieces.{IsPieceOf};
ghost use Rattle.block_laws.specs.Meeting.{with_captures, AskAlike, PiecesMeet};
ghost use Rattle.block_laws.specs.Standing.{HaveHomes, PathsStand, block_context};

/// Where the pieces in every block meet their rooms and glue arcs keep their budgets, every constrained path of the whole
/// design meets its room, whatever the setup amounts inside blocks.
pub fn pieces_compose()
    ensures { (d : Design) (t : Timing) (arcs : List Arc) (all : Constraints) (policy : Policy) (layered : Layered) (budgets arrivals : List ℤ) (captures : List Capture)
        (blocks : List ℕ) (pins : ℕ) (reached : List (Option ℕ)) (delay : ArcId → ℤ)
        → IsDesign d → HaveHomes d arcs → AreSoundConstraints pins all → PathsStand d t all → AreBlocks d blocks → AskAlike d all captures blocks
        → IsLayering (record { design = d; root = 0; arcs = arcs; all = all }) policy layered → SuitBudgets layered.problem budgets arrivals
        → All (λ b. through_inside d (b ∷ []) all.exceptions ≡ None) blocks
        → All (λ b. PiecesMeet (block_context d t all layered reached b) arcs arrivals (with_captures all captures) delay) blocks
        → ((i : ItemId) → i.0 < length layered.items → IsGlue d arcs blocks (arc_of_item layered.items i) → delay (arc_of_item layered.items i) ≤ℤ number_at budgets i.0)
        → MeetsUnder (record { design = d; root = 0; arcs = arcs; all = with_captures all captures }) delay }
{}

/// Delays that are at most the budgets of their items meet the room of every piece in a block, at the setup amounts as read.
pub fn budgets_meet_pieces()
    ensures { (d : Design) (t : Timing) (arcs : List Arc) (all : Constraints) (policy : Policy) (layered : Layered) (budgets arrivals : List ℤ)
        (pins : ℕ) (reached : List (Option ℕ)) (b : ℕ) (delay : ArcId → ℤ)
        → IsDesign d → HaveHomes d arcs → AreSoundConstraints pins all → PathsStand d t all → IsBlock d b → through_inside d (b ∷ []) all.exceptions ≡ None
        → IsLayering (record { design = d; root = 0; arcs = arcs; all = all }) policy layered → SuitBudgets layered.problem budgets arrivals
        → ((i : ItemId) → i.0 < length layered.items → delay (arc_of_item layered.items i) ≤ℤ number_at budgets i.0)
        → (u : ℕ) (k : Class) (cs : List ArcId) (room : ℤ) → IsPieceOf (block_context d t all layered reached b) arcs arrivals all u k cs room
        → sum_over delay cs ≤ℤ room }
{}

/// Commands say the same of a design whatever the amounts of its setup checks.
pub fn amounts_change_no_scope()
    ensures { (d : Design) (root : ℕ) (t : Timing) (n : Numbers) (commands : List NumberedCommand) → length n.amounts ≡ length t.checks
        → resolved (subject_with d root t n) commands ≡ resolved (record { design = d; root = root; timing = t }) commands }
{}

/// Where the amounts outside blocks are as read, captures ask for something exactly where those as read do, and outside
/// blocks for the same.
pub fn captures_ask_alike()
    ensures { (d : Design) (t : Timing) (n : Numbers) (blocks : List ℕ) (scope : Scope) (all : Constraints) (captures : List Capture)
        → length n.amounts ≡ length t.checks → AmountsKept d t blocks n
        → Lists capture_before (IsCapture (record { design = d; root = 0; timing = t }) scope) all.captures
        → Lists capture_before (IsCapture (subject_with d 0 t n) scope) captures → AskAlike d all captures blocks }
{}

/// Files of blocks that keep the piece law compose: where each block meets its file, glue arcs keep their budgets and setup
/// amounts outside blocks are as read, the whole design meets its commands.
pub fn files_compose()
    ensures { (d : Design) (t : Timing) (arcs : List Arc) (commands : List NumberedCommand) (all : Constraints) (policy : Policy) (layered : Layered) (budgets arrivals : List ℤ)
        (reached : List (Option ℕ)) (files : List BlockFile)
        → IsLayeredDesign d t arcs commands all policy layered → SuitBudgets layered.problem budgets arrivals
        → AreBlocks d (places_of files) → through_inside d (places_of files) all.exceptions ≡ None
        → FilesKeepPieces d t arcs commands all layered reached arrivals files → Compose d t arcs commands layered budgets files }
{}

/// And the budgets meet each of them.
pub fn budgets_meet_files()
    ensures { (d : Design) (t : Timing) (arcs : List Arc) (commands : List NumberedCommand) (all : Constraints) (policy : Policy) (layered : Layered) (budgets arrivals : List ℤ)
        (reached : List (Option ℕ)) (files : List BlockFile)
        → IsLayeredDesign d t arcs commands all policy layered → SuitBudgets layered.problem budgets arrivals
        → AreBlocks d (places_of files) → through_inside d (places_of files) all.exceptions ≡ None
        → FilesKeepPieces d t arcs commands all layered reached arrivals files
        → All (λ f. MeetsCommands d f.place t arcs f.commands (budget_numbers t arcs layered budgets)) files }
{}
