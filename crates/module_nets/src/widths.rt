ghost use Rattle.std.specs.Prelude.{◌≡◌, ◌≤◌, ℕ, List, Some, None, length};
ghost use Rattle.std.specs.Option.{option_map};
ghost use Rattle.bud_design.specs.Lists.{first_some};
ghost use Rattle.module_nets.specs.Entering.{is_outside, bad_select};
ghost use Rattle.module_nets.specs.Nets.{piece_bits, expression_bits, piece_net};

use crate::headers::range_width;
use crate::nets::NetTable;
use bud_syntax::{Piece, Range};

/// Whether a number is outside a net's range; in a scalar each is.
#[inline]
pub fn is_outside(range: Option<Range>, number: u32) -> bool
    ensures { result ≡ is_outside range number }
{
    match range {
        None => true,
        Some(range) => {
            number < range.left.min(range.right) || range.left.max(range.right) < number
        }
    }
}

/// The net of a piece.
#[inline]
pub fn piece_net(piece: &Piece) -> Option<&[u8]>
    ensures { option_map (λ name. name.now) result ≡ piece_net piece.now }
{
    match piece {
        Piece::Net(name) => Some(name.as_slice()),
        Piece::Bit(name, _) => Some(name.as_slice()),
        Piece::Part(name, _, _) => Some(name.as_slice()),
        Piece::Const(_) => None,
    }
}

/// The net of the first piece that has one.
pub fn first_net(pieces: &[Piece]) -> Option<&[u8]>
    ensures { option_map (λ name. name.now) result ≡ first_some piece_net pieces.now }
{
    for piece in pieces {
        let net = piece_net(piece);
        if net.is_some() {
            return net;
        }
    }
    None
}

impl NetTable<'_> {
    /// The net of a piece, of this number, that selects a bit outside its range.
    fn bad_select<'p>(&self, piece: &'p Piece, number: usize) -> Option<&'p [u8]>
        ensures { option_map (λ name. name.now) result ≡ bad_select self.now.module.now piece.now }
    {
        match piece {
            Piece::Bit(name, bit) => {
                let name = name.as_slice();
                if is_outside(self.range_of(name, number), *bit) {
                    Some(name)
                } else {
                    None
                }
            }
            Piece::Part(name, left, right) => {
                let name = name.as_slice();
                let range = self.range_of(name, number);
                if is_outside(range, *left) || is_outside(range, *right) {
                    Some(name)
                } else {
                    None
                }
            }
            _ => None,
        }
    }

    /// The net of the first piece that selects a bit outside its range, the pieces being numbered from `first` on.
    pub fn first_bad_select<'p>(&self, pieces: &'p [Piece], first: usize) -> Option<&'p [u8]>
        ensures { option_map (λ name. name.now) result ≡ first_some (bad_select self.now.module.now) pieces.now }
    {
        for (k, piece) in pieces.iter().enumerate() {
            let name = self.bad_select(piece, first.saturating_add(k));
            if name.is_some() {
                return name;
            }
        }
        None
    }

    /// How many bits a piece, of this number, has.
    fn piece_width(&self, piece: &Piece, number: usize) -> usize
        ensures width { result ≡ length (piece_bits self.now.module.now piece.now) }
        ensures most { result ≤ 4294967296 }
    {
        match piece {
            Piece::Net(name) => range_width(self.range_of(name.as_slice(), number)),
            Piece::Bit(_, _) => 1,
            Piece::Part(_, left, right) => range_width(Some(Range {
                left: *left,
                right: *right,
            })),
            Piece::Const(width) => *width as usize,
        }
    }

    /// How many bits an expression has, its pieces being numbered from `first` on.
    pub fn width(&self, pieces: &[Piece], first: usize) -> u128
        ensures { result ≡ length (expression_bits self.now.module.now pieces.now) }
    {
        let mut width: u128 = 0;
        for (k, piece) in pieces.iter().enumerate() {
            width += self.piece_width(piece, first.saturating_add(k)) as u128;
        }
        width
    }
}
