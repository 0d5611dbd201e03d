//! Laws of netlists. Each holds of all values, and its function does nothing.

ghost use Rattle.std.specs.Prelude.{◌≡◌, List, Some};
ghost use Rattle.bud_syntax.specs.declared.modules.Piece.{Piece};
ghost use Rattle.verilog_reader.specs.Left.{Left};
ghost use Rattle.verilog_reader.specs.Pieces.{IsExpr};
ghost use Rattle.verilog_reader.specs.Joining.{expr};

/// Braces within braces have no meaning of their own: what is read with a counter of the braces that are open is an
/// expression of the grammar, with its pieces; and all expressions are read.
pub fn nesting_has_no_meaning()
    ensures sound { (left rest : Left) (pieces : List Piece) → expr left ≡ Some (pieces, rest) → IsExpr left pieces rest }
    ensures complete { (left rest : Left) (pieces : List Piece) → IsExpr left pieces rest → expr left ≡ Some (pieces, rest) }
{}
