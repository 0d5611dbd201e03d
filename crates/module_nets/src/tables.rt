ghost use Rattle.std.specs.Prelude.{◌≡◌, is_some, ◌||◌, ℕ, List, map, Some, None, not, OnOk, IfOk, if◌then◌else◌};
ghost use Rattle.std.specs.Option.{option_or, option_map};
ghost use Rattle.std.specs.Str.{bytes_eq};
ghost use Rattle.module_nets.specs.Refusals.{IsMemory};
ghost use Rattle.module_nets.specs.Tables.{known, holds, IsNumbered, HasNames, IsAgain};

use crate::faults::ElabFault;
use crate::keys::{Key, are_same};
use bud_syntax::{Instance, Module, NetDecl, Port};
use indexmap::{IndexMap, IndexSet};
use std::alloc::Global;

/// What is declared under a name.
pub trait Declared {
    ghost name_of: { Self → List ℕ };

    fn name(&self) -> &[u8]
        ensures { result.now ≡ name_of self.now };
}

impl Declared for Port {
    ghost name_of = { λ p. p.name };

    fn name(&self) -> &[u8] {
        self.name.as_slice()
    }
}

impl Declared for NetDecl {
    ghost name_of = { λ n. n.name };

    fn name(&self) -> &[u8] {
        self.name.as_slice()
    }
}

impl Declared for Instance {
    ghost name_of = { λ i. i.name };

    fn name(&self) -> &[u8] {
        self.name.as_slice()
    }
}

impl Declared for Module {
    ghost name_of = { λ m. m.name };

    fn name(&self) -> &[u8] {
        self.name.as_slice()
    }
}

/// The first place of each name in a list.
pub type Places<'m> = IndexMap<Key<'m>, usize>;

/// Names, each once.
pub type Names<'m> = IndexSet<Key<'m>>;

/// What the table has at a name.
#[inline]
pub fn known<V: Copy>(table: &IndexMap<Key<'_>, V>, name: &[u8]) -> Option<V>
    ensures { result ≡ known table.now name.now }
{
    table.get(&Key { name }).copied()
}

/// What the table has at a name, which may well be its entry of this number.
#[inline]
pub fn known_near<V: Copy>(table: &IndexMap<Key<'_>, V>, name: &[u8], near: usize) -> Option<V>
    ensures { result ≡ known table.now name.now }
{
    if let Some((key, value)) = table.get_index(near) {
        if are_same(name, key.name) {
            return Some(*value);
        }
    }
    known(table, name)
}

/// The number of a name's entry in the table.
#[inline]
pub fn number_of<V: Copy>(table: &IndexMap<Key<'_>, V>, name: &[u8]) -> Option<usize>
    ensures { is_some result ≡ is_some (known table.now name.now) }
{
    table.get_index_of(&Key { name })
}

/// Puts the value at a name that the table doesn't have.
#[inline]
pub fn enter<'m, V: Copy + Drop>(
    table: &mut IndexMap<Key<'m>, V>,
    name: &'m [u8],
    value: V,
) -> Result<(), ElabFault>
    ensures entered { OnOk result ((q : List ℕ) → known table.new q ≡ option_or (known table.old q) (if bytes_eq name.now q then Some value else None)) }
    ensures memory { IsMemory result }
{
    if known(table, name).is_some() {
        return Ok(());
    }
    enter_new(table, name, value)
}

/// Puts the value at a name that the table is known not to have.
#[inline]
pub fn enter_new<'m, V: Copy + Drop>(
    table: &mut IndexMap<Key<'m>, V>,
    name: &'m [u8],
    value: V,
) -> Result<(), ElabFault>
    requires { known table.old name.now ≡ None }
    ensures entered { OnOk result ((q : List ℕ) → known table.new q ≡ option_or (known table.old q) (if bytes_eq name.now q then Some value else None)) }
    ensures memory { IsMemory result }
{
    match table.insert(Key { name }, value) {
        Ok(_) => Ok(()),
        Err(_) => Err(ElabFault::NoMemory),
    }
}

/// The table of the names of a list.
pub fn numbered<'m, T: Declared>(alloc: Global, items: &'m [T]) -> Result<Places<'m>, ElabFault>
    ensures numbered { IfOk result (λ table. IsNumbered T.name_of items.now (known table)) }
    ensures memory { IsMemory result }
{
    let mut table = Places::new(alloc);
    for (place, item) in items.iter().enumerate() {
        enter(&mut table, item.name(), place)?;
    }
    Ok(table)
}

/// Whether the set has a name.
#[inline]
pub fn holds(names: &Names<'_>, name: &[u8]) -> bool
    ensures { result ≡ holds names.now name.now }
{
    names.contains(&Key { name })
}

/// Puts a name into the set, and says whether it wasn't there.
#[inline]
pub fn note<'m>(names: &mut Names<'m>, name: &'m [u8]) -> Result<bool, ElabFault>
    ensures fresh { IfOk result (λ fresh. fresh ≡ not (holds names.old name.now)) }
    ensures noted { OnOk result ((q : List ℕ) → holds names.new q ≡ (bytes_eq q name.now || holds names.old q)) }
    ensures memory { IsMemory result }
{
    match names.insert_full(Key { name }) {
        Ok((_, fresh)) => Ok(fresh),
        Err(_) => Err(ElabFault::NoMemory),
    }
}

/// Puts the names of a list into the set, up to the first that it has already.
pub fn first_again<'m, T: Declared>(
    names: &mut Names<'m>,
    items: &'m [T],
) -> Result<Option<&'m [u8]>, ElabFault>
    ensures again { (seen : List (List ℕ)) → HasNames seen (holds names.old) → IfOk result (λ r. IsAgain seen (map T.name_of items.now) (holds names.new) (option_map (λ n. n.now) r)) }
    ensures memory { IsMemory result }
{
    for item in items {
        let name = item.name();
        if !note(names, name)? {
            return Ok(Some(name));
        }
    }
    Ok(None)
}
