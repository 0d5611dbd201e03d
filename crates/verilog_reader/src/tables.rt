ghost use Rattle.std.specs.Prelude.{◌≡◌, ℕ, List, Some, OnOk, if◌then◌else◌};
ghost use Rattle.std.specs.Str.{bytes_eq};
ghost use Rattle.verilog_reader.specs.Answers.{IsMemory};
ghost use Rattle.verilog_reader.specs.Modules.{earlier};
ghost use Rattle.verilog_reader.specs.Tables.{known, with_first, seen};

use crate::readings::Stop;
use crate::trees::{Declared, Named};
use indexmap::IndexMap;

/// The names of a header, each with its first declaration so far.
pub type PortTable<'t> = IndexMap<&'t [u8], Option<Declared>>;

/// What the table knows of a name.
#[inline]
pub fn known(table: &PortTable<'_>, name: &[u8]) -> Option<Option<Declared>>
    ensures { result ≡ known table.now name.now }
{
    table.get(name).copied()
}

/// What is known of a name behind one more declaration.
#[inline]
fn with_first(before: Option<Option<Declared>>, declared: Option<Declared>) -> Option<Declared>
    ensures { result ≡ with_first before declared }
{
    match before {
        Some(Some(first)) => Some(first),
        _ => declared,
    }
}

/// Lists the name, with this declaration where it has none before.
#[inline]
pub fn enter<'t>(
    table: &mut PortTable<'t>,
    name: &'t [u8],
    declared: Option<Declared>,
) -> Result<(), Stop>
    ensures entered { OnOk result ((q : List ℕ) → known table.new q ≡ (if bytes_eq name.now q then Some (with_first (known table.old name.now) declared) else known table.old q)) }
    ensures stop { IsMemory result }
{
    let first = with_first(known(table, name), declared);
    match table.insert(name, first) {
        Ok(_) => Ok(()),
        Err(_) => Err(Stop::NoMemory),
    }
}

/// The one that begins first.
#[inline]
pub fn earlier<'t>(first: Option<&'t Named>, second: Option<&'t Named>) -> Option<&'t Named>
    ensures { seen result ≡ earlier (seen first.entry) (seen second.entry) }
{
    match (first, second) {
        (None, _) => second,
        (_, None) => first,
        (Some(a), Some(b)) => { if b.at < a.at { second } else { first } }
    }
}
