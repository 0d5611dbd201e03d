//! What takes bytes, as standard output does.
ghost use Rattle.std.specs.Prelude.{ℕ, ◌≤◌, Option, List};
ghost use Rattle.bud_shelf.specs.Outside.{IsPutAnswer};

use thiserror::Error;

/// Why a sink refused a piece.
#[derive(Clone, Copy, Debug, PartialEq, Eq, Error)]
pub enum SinkFault {
    /// The call failed, and the sink's count of faults rose.
    #[error("the call failed")]
    Failed,

    /// There was no memory for the bytes.
    #[error("no memory")]
    NoMemory,
}

/// What takes bytes, piece by piece.
///
/// A sink may tell the bytes that it took, and one that does goes on telling them. Its count of faults never falls, and
/// where a clause says that it rose, it may also stand at its last value, 2^64 - 1.
pub trait Sink {
    /// The bytes taken so far, where the sink tells them.
    ghost taken: { Self → Option (List ℕ) };

    /// The faults so far.
    ghost faults: { Self → ℕ };

    /// Takes a piece whole, or refuses and has taken a prefix of it, which may be empty. To take nothing of a piece that
    /// is not empty is a fault.
    fn put(&mut self, bytes: &[u8]) -> Result<(), SinkFault>
        ensures count { faults self.old ≤ faults self.new }

        // The whole piece is appended, or the cause of the refusal and a prefix.
        ensures answer { IsPutAnswer (taken self.old) (taken self.new) (faults self.old) (faults self.new)
            bytes.now result };
}
