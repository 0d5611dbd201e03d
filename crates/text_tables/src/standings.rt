ghost use Rattle.std.specs.Prelude.{◌≡◌, ◌∷◌, ◌++◌, [], ℕ, List, Some, length, IfOk, OnOk, if◌then◌else◌};
ghost use Rattle.std.specs.Str.{bytes_eq};
ghost use Rattle.text_tables.specs.Standings.{known, behind, standing, IsOf};

use indexmap::IndexMap;
use std::alloc::{AllocError, Global};

/// Where a text stands among texts: its first number, and whether no other number has it.
#[derive(Clone, Copy, Debug, PartialEq, Eq)]
pub struct Standing {
    pub first: u32,
    pub alone: bool,
}

/// Texts by number, each found by one look-up.
#[derive(Drop)]
pub struct TextTable {
    standings: IndexMap<Vec<u8>, Standing>,
}

/// Where a text stands behind one more that is equal to it.
fn behind(before: Option<Standing>, number: u32) -> Standing
    ensures { result ≡ behind before number }
{
    match before {
        Some(standing) => Standing {
            first: standing.first,
            alone: false,
        },
        None => Standing {
            first: number,
            alone: true,
        },
    }
}

impl TextTable {
    /// The table of no texts, which takes no memory.
    pub fn new(alloc: Global) -> TextTable
        ensures { IsOf [] result }
    {
        TextTable {
            standings: IndexMap::new(alloc),
        }
    }

    /// Where the text stands.
    pub fn find(&self, text: &[u8]) -> Option<Standing>
        ensures { result ≡ known self.now text.now }
    {
        self.standings.get(text).copied()
    }

    /// Puts a standing at a text.
    fn put(&mut self, text: Vec<u8>, standing: Standing) -> Result<(), AllocError>
        ensures { OnOk result ((q : List ℕ) → known self.new q ≡ (if bytes_eq text.items q then Some standing else known self.old q)) }
    {
        let Ok(_) = self.standings.insert(text, standing) else {
            return Err(AllocError);
        };
        Ok(())
    }

    /// Adds a text; its number is how many texts there are.
    pub fn enter(&mut self, alloc: Global, text: &[u8], number: u32) -> Result<(), AllocError>
        ensures { OnOk result ((texts : List (List ℕ)) → IsOf texts self.old → length texts ≡ number → IsOf (texts ++ text.now ∷ []) self.new) }
    {
        let standing = behind(self.find(text), number);
        let copy = Vec::from_slice(alloc, text)?;
        self.put(copy, standing)?;
        Ok(())
    }
}
