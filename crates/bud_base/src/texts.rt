ghost use Rattle.std.specs.Prelude.{◌≡◌, [], ◌∷◌, ◌++◌, ◌↔◌, length, IsTrue, OnOk, OnErr, IfOk};

use smallvec::SmallVec;
use std::alloc::{AllocError, Global};
use std::marker::Model;
use thiserror::Error;

/// How many bytes a text holds without memory of its own.
const SHORT: usize = 16;

/// Bytes, seen by contracts as a list. Short ones, as most names are, stand in the value itself.
#[derive(Debug, Drop)]
pub struct Text {
    bytes: SmallVec<u8, SHORT>,
}

impl Model for Text {
    ghost use Rattle.std.specs.Prelude.{List, ℕ};
    ghost use Rattle.std.specs.Coded.{coded_list, coded_ℕ};

    ghost Value = { List ℕ };

    ghost coded = { coded_list coded_ℕ };

    ghost view = { λ text. text.bytes.items };
}

impl Text {
    /// The empty text, which takes no memory.
    pub fn new(alloc: Global) -> Text
        ensures { result ≡ [] }
    {
        Text {
            bytes: SmallVec::new(alloc),
        }
    }

    /// A copy of these bytes, which takes memory only where they are more than 16.
    pub fn from_slice(alloc: Global, bytes: &[u8]) -> Result<Text, AllocError>
        ensures { IfOk result (λ text. text ≡ bytes.now) }
    {
        let bytes = SmallVec::from_slice(alloc, bytes)?;
        Ok(Text { bytes })
    }

    /// The bytes of the `Vec`, without taking memory; where they are short its memory is given back.
    pub fn from_vec(vec: Vec<u8>) -> Text
        ensures { result ≡ vec.items }
    {
        let mut bytes = SmallVec::from_vec(vec);
        if bytes.len() <= SHORT {
            bytes.shrink_to_fit();
        }
        Text { bytes }
    }

    pub fn as_slice(&self) -> &[u8]
        ensures { result.now ≡ self.now }
    {
        self.bytes.as_slice()
    }

    pub fn len(&self) -> usize
        ensures { result ≡ length self.now }
    {
        self.bytes.len()
    }

    pub fn is_empty(&self) -> bool
        ensures { IsTrue result ↔ (self.now ≡ []) }
    {
        self.bytes.as_slice().is_empty()
    }

    /// The allocator that the text takes memory from.
    pub fn allocator(&self) -> Global {
        *self.bytes.allocator()
    }

    /// Adds a byte at the end; for want of memory the text stays.
    pub fn push(&mut self, byte: u8) -> Result<(), AllocError>
        ensures ok { OnOk result (self.new ≡ self.old ++ byte ∷ []) }
        ensures err { OnErr result (self.new ≡ self.old) }
    {
        self.bytes.push(byte)?;
        Ok(())
    }

    /// Adds bytes at the end; for want of memory the text stays.
    pub fn extend_from_slice(&mut self, bytes: &[u8]) -> Result<(), AllocError>
        ensures ok { OnOk result (self.new ≡ self.old ++ bytes.now) }
        ensures err { OnErr result (self.new ≡ self.old) }
    {
        self.bytes.extend_from_slice(bytes)?;
        Ok(())
    }
}

/// Why a line text is refused.
#[derive(Clone, Copy, Debug, PartialEq, Eq, Error)]
pub enum TextFault {
    /// The text isn't in the loose form of its grammar; the offset is within the text.
    #[error("syntax")]
    Syntax(usize),
    /// The number that begins at this offset is out of its range.
    #[error("value")]
    Value(usize),
    /// Want of memory.
    #[error("memory")]
    NoMemory,
}
