ghost use Rattle.std.specs.Prelude.{◌≡◌, ℕ, ℤ, Result, ◌+◌, ◌<◌, ◌≤◌, ◌^◌, length, min, OnErr, slice_get};
ghost use Rattle.text_scan.specs.Cursors.{Place, IsDecimalAnswer};
ghost use Rattle.text_scan.specs.declared.decimals.Round.{Round};
ghost use Rattle.text_scan.specs.declared.decimals.ScanFault.{ScanFault};

use crate::decimals::{Round, ScanFault};
use crate::scans::read_front;
use std::marker::Model;

/// Reads a text byte by byte and number by number.
#[derive(Debug, Drop)]
pub struct Cursor<'a> {
    text: &'a [u8],
    at: usize,
}

impl<'a> Model for Cursor<'a> {
    ghost use Rattle.std.specs.Prelude.{◌≤◌, length};
    ghost use Rattle.text_scan.specs.Cursors.{Place};

    ghost Value = { Place };

    ghost view = { λ cursor. record { text = cursor.text.now; at = cursor.at } };

    ghost invariant = { λ cursor. cursor.at ≤ length cursor.text.now };
}

impl<'a> Cursor<'a> {
    /// A cursor at the beginning of the text.
    pub fn new(text: &'a [u8]) -> Cursor<'a>
        ensures { result ≡ record { text = text.now; at = 0 } }
    {
        Cursor { text, at: 0 }
    }

    /// The offset in the text.
    pub fn at(&self) -> usize
        ensures { result ≡ self.now.at }
    {
        self.at
    }

    /// The byte at the cursor, or None at the end of the text.
    pub fn peek(&self) -> Option<u8>
        ensures { result ≡ slice_get self.now.text self.now.at }
    {
        self.text.get(self.at).copied()
    }

    /// Moves one byte on; at the end of the text it does nothing.
    pub fn skip(&mut self)
        ensures { self.new ≡ record { text = self.old.text; at = min (self.old.at + 1) (length self.old.text) } }
    {
        if self.at < self.text.len() {
            self.at += 1;
        }
    }

    /// Reads the longest number at the cursor: an optional sign, digits and an optional fraction, with at least one
    /// digit. It answers the number times `unit`, exactly up to the rounding.
    ///
    /// NotNumber comes where no number stands at the cursor, OutOfRange where the rounded number passes 10^9 either
    /// way; then the cursor stays. It takes no memory.
    pub fn decimal(&mut self, unit: u64, round: Round) -> Result<i64, ScanFault>
        requires some { 1 ≤ unit }
        requires most { unit ≤ 100000000 }
        ensures answer { IsDecimalAnswer self.old self.new unit round result }
        ensures err { OnErr result (self.new ≡ self.old) }
    {
        match read_front(&self.text[self.at..], unit, round) {
            Ok((number, length)) => {
                self.at += length;
                Ok(number)
            }
            Err(fault) => Err(fault),
        }
    }
}

/// What is answered at a place is determined, and so is the place after it: the causes of the answers exclude each other.
pub fn one_decimal()
    ensures { (old new other : Place) (unit : ℕ) (round : Round) (r s : Result ℤ ScanFault) →
        IsDecimalAnswer old new unit round r → IsDecimalAnswer old other unit round s → (r ≡ s) × (new ≡ other) }
{}
