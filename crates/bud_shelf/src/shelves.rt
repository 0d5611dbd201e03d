//! Files by name.
ghost use Rattle.std.specs.Prelude.{◌≡◌, ℕ, ◌≤◌, Option};
ghost use Rattle.bud_shelf.specs.Outside.{Files, IsReadAnswer, IsWriteAnswer};

use thiserror::Error;

/// The most bytes of one file that a shelf reads.
pub const LONGEST_FILE: u64 = 268_435_456;

/// Why a shelf refused a call.
#[derive(Clone, Copy, Debug, PartialEq, Eq, Error)]
pub enum ShelfFault {
    /// There is no file of this name.
    #[error("the file is missing")]
    Missing,

    /// The call failed, and the shelf's count of faults rose.
    #[error("the call failed")]
    Failed,

    /// The file has this many bytes, more than `LONGEST_FILE`.
    #[error("the file is too long")]
    TooLong(u64),

    /// There was no memory for the bytes.
    #[error("no memory")]
    NoMemory,
}

/// What holds files by name.
///
/// A shelf may tell its files, and one that does goes on telling them. Its count of faults never falls, and where a
/// clause says that it rose, it may also stand at its last value, 2^64 - 1.
pub trait Shelf {
    /// The files, where the shelf tells them.
    ghost files: { Self → Option Files };

    /// The faults so far.
    ghost faults: { Self → ℕ };

    /// Reads a file of at most `LONGEST_FILE` bytes in place of what `into` held. After a refusal `into` is empty.
    fn read(&mut self, name: &str, into: &mut Vec<u8>) -> Result<(), ShelfFault>
        // It changes no file, whatever it answers.
        ensures unchanged { files self.new ≡ files self.old }
        ensures count { faults self.old ≤ faults self.new }

        // The file, or the cause of the refusal.
        ensures answer { IsReadAnswer (files self.old) (faults self.old) (faults self.new)
            name.now into.new.items result };

    /// Writes a file in place of what its name stood for. After a refusal that file may hold anything.
    fn write(&mut self, name: &str, bytes: &[u8]) -> Result<(), ShelfFault>
        ensures count { faults self.old ≤ faults self.new }

        // The file is written whole, or the cause of the refusal. All other files stay either way.
        ensures answer { IsWriteAnswer (files self.old) (files self.new) (faults self.old) (faults self.new)
            name.now bytes.now result };
}
