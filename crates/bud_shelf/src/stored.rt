//! The files of a shelf in memory.
ghost use Rattle.std.specs.Prelude.{◌≡◌, ◌+◌, ◌<◌, ◌^◌, ◌++◌, length, vec_len, OnOk, OnErr, IfSome, Some};
ghost use Rattle.std.specs.List.{position_from};
ghost use Rattle.std.specs.Option.{option_copied};
ghost use Rattle.bud_shelf.specs.Outside.{IsReadAnswer};
ghost use Rattle.bud_shelf.specs.Stored.{no_files, with_content, content_bytes, IsContent, file_in};
ghost use Rattle.bud_shelf.specs.Kept.{has_name, stored_of};

use crate::shelves::{LONGEST_FILE, ShelfFault};
use std::alloc::{AllocError, Global};
use std::marker::Model;

/// What a file holds.
#[derive(Debug, Drop)]
pub enum Content {
    /// These bytes.
    Bytes(Vec<u8>),

    /// This many zero bytes, of which only the number is kept.
    Zeros(u64),
}

impl Content {
    fn len(&self) -> u64
        ensures { result ≡ length (content_bytes self.now) }
    {
        match self {
            Content::Bytes(bytes) => bytes.len() as u64,
            Content::Zeros(len) => *len,
        }
    }

    fn append_to(&self, into: &mut Vec<u8>) -> Result<(), AllocError>
        requires { vec_len into.old + length (content_bytes self.now) < 2 ^ 64 }
        ensures ok { OnOk result (into.new.items ≡ into.old.items ++ content_bytes self.now) }
        ensures err { OnErr result (into.new.items ≡ into.old.items) }
    {
        match self {
            Content::Bytes(bytes) => into.extend_from_slice(bytes.as_slice()),
            Content::Zeros(len) => into.resize(into.len() + *len as usize, 0),
        }
    }
}

#[derive(Debug, Drop)]
struct Kept {
    name: String,
    content: Content,
}

/// Files by name, each name once. A look-up reads the names in turn.
#[derive(Debug, Drop)]
pub struct StoredFiles {
    kept: Vec<Kept>,
}

impl Model for StoredFiles {
    ghost use Rattle.bud_shelf.specs.Stored.{Stored, stored_code};

    ghost Value = { Stored };

    ghost coded = { stored_code };

    ghost use Rattle.bud_shelf.specs.Kept.{stored_of};

    ghost view = { λ s. stored_of s.kept.items };
}

impl StoredFiles {
    pub fn new(alloc: Global) -> StoredFiles
        ensures { result ≡ no_files }
    {
        StoredFiles {
            kept: Vec::new(alloc),
        }
    }

    pub fn allocator(&self) -> Global {
        *self.kept.allocator()
    }

    /// Puts a file in place of what its name stood for.
    pub fn put(&mut self, name: &str, content: Content) -> Result<(), AllocError>
        ensures ok { OnOk result (self.new ≡ with_content self.old name.now content) }
        ensures err { OnErr result (self.new ≡ self.old) }
    {
        match place_of(self.kept.as_slice(), name) {
            Some(place) => {
                self.kept[place].content = content;
                Ok(())
            }
            None => {
                let name = String::from_str(self.allocator(), name)?;
                self.kept.push(Kept { name, content })?;
                Ok(())
            }
        }
    }

    /// The bytes of a file that is kept whole.
    pub fn file(&self, name: &str) -> Option<&[u8]>
        ensures { option_copied result ≡ file_in self.now name.now }
    {
        match content_of(self.kept.as_slice(), name) {
            Some(Content::Bytes(bytes)) => Some(bytes.as_slice()),
            Some(Content::Zeros(_)) => None,
            None => None,
        }
    }

    /// Reads a file of at most `LONGEST_FILE` bytes. After a refusal `into` is empty.
    pub fn read(&self, name: &str, into: &mut Vec<u8>) -> Result<(), ShelfFault>
        ensures answer { IsReadAnswer (Some self.now.files) 0 0 name.now into.new.items result }
    {
        into.clear();
        let Some(content) = content_of(self.kept.as_slice(), name) else {
            return Err(ShelfFault::Missing);
        };
        let len = content.len();
        if len > LONGEST_FILE {
            return Err(ShelfFault::TooLong(len));
        }
        match content.append_to(into) {
            Ok(()) => Ok(()),
            Err(_) => Err(ShelfFault::NoMemory),
        }
    }
}

/// What stands under a name.
fn content_of<'a>(kept: &'a [Kept], name: &str) -> Option<&'a Content>
    ensures { IsContent (stored_of kept.now) name.now (option_copied result) }
{
    match place_of(kept, name) {
        Some(place) => Some(&kept[place].content),
        None => None,
    }
}

/// The place of the first file of this name.
fn place_of(kept: &[Kept], name: &str) -> Option<usize>
    ensures first { result ≡ position_from (has_name name.now) 0 kept.now }
    ensures within { IfSome result (λ place. place < length kept.now) }
{
    for (place, file) in kept.iter().enumerate() {
        if name == file.name.as_str() {
            return Some(place);
        }
    }
    None
}
