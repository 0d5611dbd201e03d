//! A shelf and a sink in memory that fail at the calls they are told to fail at.
ghost use Rattle.std.specs.Prelude.{◌≡◌, ◌↔◌, ◌≤◌, ◌++◌, [], IsTrue, OnOk, OnErr, Some};
ghost use Rattle.std.specs.Option.{option_copied};
ghost use Rattle.bud_shelf.specs.Outside.{IsReadAnswer, IsWriteAnswer, IsPartlyAppended, IsPutAnswer};
ghost use Rattle.bud_shelf.specs.Stored.{no_files, with_file, with_long, file_in};
ghost use Rattle.bud_shelf.specs.Calls.{no_calls, fails_next, after_call, with_failing};

use crate::calls::CallLog;
use crate::shelves::{Shelf, ShelfFault};
use crate::sinks::{Sink, SinkFault};
use crate::stored::{Content, StoredFiles};
use std::alloc::{AllocError, Global};
use std::marker::Model;

/// A shelf in memory that tells its files, and fails at the calls whose numbers it was given. The calls of the trait
/// alone are counted, from 1.
#[derive(Debug, Drop)]
pub struct MemShelf {
    stored: StoredFiles,
    calls: CallLog,
}

impl Model for MemShelf {
    ghost use Rattle.bud_shelf.specs.Memory.{ShelfState, shelf_code};

    ghost Value = { ShelfState };

    ghost coded = { shelf_code };

    ghost view = { λ s. record { stored = s.stored; calls = s.calls } };
}

impl MemShelf {
    /// A shelf without files, of which no call is to fail.
    pub fn new(alloc: Global) -> MemShelf
        ensures { result ≡ record { stored = no_files; calls = no_calls } }
    {
        MemShelf {
            stored: StoredFiles::new(alloc),
            calls: CallLog::new(alloc),
        }
    }

    /// Puts a file in place of what its name stood for. This is no call of the trait.
    pub fn add(&mut self, name: &str, bytes: &[u8]) -> Result<(), AllocError>
        ensures ok { OnOk result (self.new ≡ record self.old { stored = with_file self.old.stored name.now bytes.now }) }
        ensures err { OnErr result (self.new ≡ self.old) }
    {
        let content = Content::Bytes(Vec::from_slice(self.stored.allocator(), bytes)?);
        self.stored.put(name, content)
    }

    /// Puts a file of `len` zero bytes, of which only the number is kept, in place of what its name stood for. This is
    /// no call of the trait.
    pub fn add_long(&mut self, name: &str, len: u64) -> Result<(), AllocError>
        ensures ok { OnOk result (self.new ≡ record self.old { stored = with_long self.old.stored name.now len }) }
        ensures err { OnErr result (self.new ≡ self.old) }
    {
        self.stored.put(name, Content::Zeros(len))
    }

    /// The bytes of a file, where there is one of this name and `add_long` did not put it.
    pub fn file(&self, name: &str) -> Option<&[u8]>
        ensures { option_copied result ≡ file_in self.now.stored name.now }
    {
        self.stored.file(name)
    }

    /// Has the call of this number fail, counted from 1 over all calls of the trait. A number that is past, or 0, has no
    /// effect.
    pub fn fail_at(&mut self, call: u64) -> Result<(), AllocError>
        ensures ok { OnOk result (self.new ≡ record self.old { calls = with_failing self.old.calls call }) }
        ensures err { OnErr result (self.new ≡ self.old) }
    {
        self.calls.fail_at(call)
    }
}

impl Shelf for MemShelf {
    ghost files = { λ s. Some s.stored.files };

    ghost faults = { λ s. s.calls.faults };

    fn read(&mut self, name: &str, into: &mut Vec<u8>) -> Result<(), ShelfFault>
        ensures unchanged { self.new.stored.files ≡ self.old.stored.files }
        ensures count { self.old.calls.faults ≤ self.new.calls.faults }
        ensures answer { IsReadAnswer (Some self.old.stored.files) self.old.calls.faults self.new.calls.faults
            name.now into.new.items result }

        // It fails exactly where it was told to, and nothing changes but that it was called.
        ensures fails { (result ≡ Err ShelfFault.Failed) ↔ IsTrue (fails_next self.old.calls) }
        ensures called { self.new ≡ record self.old { calls = after_call self.old.calls } }
    {
        if self.calls.next_fails() {
            into.clear();
            return Err(ShelfFault::Failed);
        }
        self.stored.read(name, into)
    }

    fn write(&mut self, name: &str, bytes: &[u8]) -> Result<(), ShelfFault>
        ensures count { self.old.calls.faults ≤ self.new.calls.faults }
        ensures answer { IsWriteAnswer (Some self.old.stored.files) (Some self.new.stored.files)
            self.old.calls.faults self.new.calls.faults name.now bytes.now result }

        // It fails exactly where it was told to, and after a refusal nothing changed but that it was called.
        ensures fails { (result ≡ Err ShelfFault.Failed) ↔ IsTrue (fails_next self.old.calls) }
        ensures called { self.new.calls ≡ after_call self.old.calls }
        ensures ok { OnOk result (self.new.stored ≡ with_file self.old.stored name.now bytes.now) }
        ensures err { OnErr result (self.new.stored ≡ self.old.stored) }
    {
        if self.calls.next_fails() {
            return Err(ShelfFault::Failed);
        }
        match self.add(name, bytes) {
            Ok(()) => Ok(()),
            Err(_) => Err(ShelfFault::NoMemory),
        }
    }
}

/// A sink in memory that tells what it took, and fails at the calls whose numbers it was given. The calls of the trait
/// alone are counted, from 1.
#[derive(Debug, Drop)]
pub struct MemSink {
    taken: Vec<u8>,
    calls: CallLog,
}

impl Model for MemSink {
    ghost use Rattle.bud_shelf.specs.Memory.{SinkState, sink_code};

    ghost Value = { SinkState };

    ghost coded = { sink_code };

    ghost view = { λ s. record { taken = s.taken.items; calls = s.calls } };
}

impl MemSink {
    /// A sink that took nothing, of which no call is to fail.
    pub fn new(alloc: Global) -> MemSink
        ensures { result ≡ record { taken = []; calls = no_calls } }
    {
        MemSink {
            taken: Vec::new(alloc),
            calls: CallLog::new(alloc),
        }
    }

    /// What was taken.
    pub fn bytes(&self) -> &[u8]
        ensures { result.now ≡ self.now.taken }
    {
        self.taken.as_slice()
    }

    /// Has the call of this number fail, counted from 1 over all calls of the trait. A number that is past, or 0, has no
    /// effect.
    pub fn fail_at(&mut self, call: u64) -> Result<(), AllocError>
        ensures ok { OnOk result (self.new ≡ record self.old { calls = with_failing self.old.calls call }) }
        ensures err { OnErr result (self.new ≡ self.old) }
    {
        self.calls.fail_at(call)
    }
}

impl Sink for MemSink {
    ghost taken = { λ s. Some s.taken };

    ghost faults = { λ s. s.calls.faults };

    /// A call that is to fail takes some prefix of the piece.
    fn put(&mut self, bytes: &[u8]) -> Result<(), SinkFault>
        ensures count { self.old.calls.faults ≤ self.new.calls.faults }
        ensures answer { IsPutAnswer (Some self.old.taken) (Some self.new.taken)
            self.old.calls.faults self.new.calls.faults bytes.now result }

        // It fails exactly where it was told to, and nothing else changes but that it was called.
        ensures fails { (result ≡ Err SinkFault.Failed) ↔ IsTrue (fails_next self.old.calls) }
        ensures called { self.new.calls ≡ after_call self.old.calls }
    {
        if self.calls.next_fails() {
            append_half(&mut self.taken, bytes);
            return Err(SinkFault::Failed);
        }
        match self.taken.extend_from_slice(bytes) {
            Ok(()) => Ok(()),
            Err(_) => Err(SinkFault::NoMemory),
        }
    }
}

/// Appends the first half of the piece, or nothing where there is no memory for it.
fn append_half(taken: &mut Vec<u8>, piece: &[u8])
    ensures { IsPartlyAppended (Some taken.old.items) (Some taken.new.items) piece.now }
{
    let (half, _) = piece.split_at(piece.len() / 2);
    let _ = taken.extend_from_slice(half);
}
