//! A shelf and a sink in memory that never fail.
ghost use Rattle.std.specs.Prelude.{◌≡◌, OnOk, OnErr, [], Some};
ghost use Rattle.std.specs.Option.{option_copied};
ghost use Rattle.std.specs.FinMap.{empty, get, insert};

use crate::shelves::{Shelf, ShelfFault};
use crate::sinks::{Sink, SinkFault};
use crate::stored::{Content, StoredFiles};
use std::alloc::{AllocError, Global};
use std::marker::Model;

/// A shelf in memory that tells its files and refuses nothing but what is missing, too long or wants memory. Its count
/// of faults is always 0.
#[derive(Debug, Drop)]
pub struct SafeShelf {
    stored: StoredFiles,
}

impl Model for SafeShelf {
    ghost use Rattle.std.specs.Prelude.{◌≡◌};
    ghost use Rattle.std.specs.FinSet as set;
    ghost use Rattle.bud_shelf.specs.Outside.{Files};
    ghost use Rattle.bud_shelf.specs.Stored.{files_code};

    ghost Value = { Files };

    ghost coded = { files_code };

    ghost view = { λ s. s.stored.files };

    ghost invariant = { λ s. s.stored.long ≡ set.empty };
}

impl SafeShelf {
    /// A shelf without files.
    pub fn new(alloc: Global) -> SafeShelf
        ensures { result ≡ empty }
    {
        SafeShelf {
            stored: StoredFiles::new(alloc),
        }
    }

    /// Puts a file in place of what its name stood for. This is no call of the trait.
    pub fn add(&mut self, name: &str, bytes: &[u8]) -> Result<(), AllocError>
        ensures ok { OnOk result (self.new ≡ insert self.old name.now bytes.now) }
        ensures err { OnErr result (self.new ≡ self.old) }
    {
        let content = Content::Bytes(Vec::from_slice(self.stored.allocator(), bytes)?);
        self.stored.put(name, content)
    }

    /// The bytes of a file, where there is one of this name.
    pub fn file(&self, name: &str) -> Option<&[u8]>
        ensures { option_copied result ≡ get self.now name.now }
    {
        self.stored.file(name)
    }
}

impl Shelf for SafeShelf {
    ghost files = { λ s. Some s };

    ghost faults = { λ _. 0 };

    fn read(&mut self, name: &str, into: &mut Vec<u8>) -> Result<(), ShelfFault> {
        self.stored.read(name, into)
    }

    fn write(&mut self, name: &str, bytes: &[u8]) -> Result<(), ShelfFault> {
        match self.add(name, bytes) {
            Ok(()) => Ok(()),
            Err(_) => Err(ShelfFault::NoMemory),
        }
    }
}

/// A sink in memory that tells what it took and refuses nothing but for want of memory. Its count of faults is always
/// 0.
#[derive(Debug, Drop)]
pub struct SafeSink {
    taken: Vec<u8>,
}

impl Model for SafeSink {
    ghost use Rattle.std.specs.Prelude.{List, ℕ};

    ghost Value = { List ℕ };

    ghost view = { λ s. s.taken.items };
}

impl SafeSink {
    /// A sink that took nothing.
    pub fn new(alloc: Global) -> SafeSink
        ensures { result ≡ [] }
    {
        SafeSink {
            taken: Vec::new(alloc),
        }
    }

    /// What was taken.
    pub fn bytes(&self) -> &[u8]
        ensures { result.now ≡ self.now }
    {
        self.taken.as_slice()
    }
}

impl Sink for SafeSink {
    ghost taken = { λ s. Some s };

    ghost faults = { λ _. 0 };

    fn put(&mut self, bytes: &[u8]) -> Result<(), SinkFault> {
        match self.taken.extend_from_slice(bytes) {
            Ok(()) => Ok(()),
            Err(_) => Err(SinkFault::NoMemory),
        }
    }
}
