ghost use Rattle.std.specs.Prelude.{◌≡◌, ℕ, OnOk, length};
ghost use Rattle.net_delays.specs.WireForests.{drive, pin_count};
ghost use Rattle.bud_design.specs.Designs.{driver_of};
ghost use Rattle.delay_bind.specs.Binding.{entries_in, with_entry, IsRowsAnswer};

use crate::faults::BindFault;
use crate::rows::{Entry, entry_of};
use bud_syntax::SdfRow;
use flat_design::Flat;
use net_delays::{Along, WireForest};
use registers::{Setup, Through};
use std::alloc::{AllocError, Global};

/// The entries of a delay file by the pins that they name, in file order.
#[derive(Debug, Drop)]
pub struct EntryLists {
    pub throughs: Vec<Through>,
    pub setups: Vec<Setup>,
    pub alongs: Vec<Along>,
}

/// Adds what a row says.
fn add(lists: &mut EntryLists, entry: Entry) -> Result<(), AllocError>
    ensures { OnOk result (entries_in lists.new ≡ with_entry (entries_in lists.old) entry) }
{
    match entry {
        Entry::Nothing => {}
        Entry::Leaf(through) => lists.throughs.push(through)?,
        Entry::Checked(setup) => lists.setups.push(setup)?,
        Entry::Net(along) => lists.alongs.push(along)?,
    }
    Ok(())
}

/// The entries of the rows, in their order, or the first refusal of a row.
pub fn entries(
    alloc: Global,
    flat: &Flat,
    forest: &WireForest,
    rows: &[SdfRow],
) -> Result<EntryLists, BindFault>
    requires pins { pin_count forest.now ≡ length flat.now.pins }
    requires drives { (v : ℕ) → drive forest.now v ≡ driver_of flat.now.wires v }
    ensures { IsRowsAnswer flat.now rows.now result }
{
    let mut lists = EntryLists {
        throughs: Vec::new(alloc),
        setups: Vec::new(alloc),
        alongs: Vec::new(alloc),
    };
    for row in rows {
        let entry = entry_of(alloc, flat, forest, row)?;
        if add(&mut lists, entry).is_err() {
            return Err(BindFault::NoMemory);
        }
    }
    Ok(lists)
}
