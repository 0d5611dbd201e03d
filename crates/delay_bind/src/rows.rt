ghost use Rattle.std.specs.Prelude.{◌≡◌, ◌<◌, ℕ, Some, length};
ghost use Rattle.bud_syntax.specs.declared.delays.SdfKind.TheVariants.{Delay, Setup as SetupRow, Wire as WireRow};
ghost use Rattle.delay_bind.specs.Answers.{IsJudged};
ghost use Rattle.delay_bind.specs.Entries.{through_of, setup_of, along_of};
ghost use Rattle.delay_bind.specs.RowAnswers.{IsAlongWithin, IsEntryOf, IsWireRow, IsApartFault, IsEntryWithin, AreEntryJoined, IsRowAnswer};
ghost use Rattle.registers.specs.Marks.{IsThroughWithin, IsSetupWithin};
ghost use Rattle.net_delays.specs.WireForests.{drive, pin_count};
ghost use Rattle.bud_design.specs.Designs.{driver_of};
ghost use Rattle.delay_bind.specs.Rows.{names_cell, kind_fault, name_fault};

use crate::faults::BindFault;
use crate::names::{copied, is_plain, pin_text, place_of};
use crate::row_pins::{any_pin, leaf, own_pin};
use bud_base::Text;
use bud_syntax::{Edge, SdfKind, SdfRow};
use flat_design::Flat;
use net_delays::{Along, WireForest};
use registers::{Setup, Through};
use std::alloc::Global;

/// What a row adds to the entries of a delay file.
#[derive(Clone, Copy, Debug)]
pub enum Entry {
    Nothing,
    Leaf(Through),
    Checked(Setup),
    Net(Along),
}

/// Whether the row's cell type is the module of its instance; the top may have any.
pub fn is_cell(flat: &Flat, place: u32, row: &SdfRow) -> bool
    requires { place < length flat.now.places }
    ensures { result ≡ names_cell flat.now place row.now }
{
    if row.instance.as_slice().is_empty() {
        return true;
    }
    let module = flat.places()[place as usize].module.as_slice();
    module == row.cell.as_slice() || is_plain(module, row.cell.as_slice())
}

/// A delay from an input to an output of a leaf.
pub fn through(
    alloc: Global,
    flat: &Flat,
    place: u32,
    row: &SdfRow,
    from: &Text,
    edge: Option<Edge>,
    to: &Text,
    value: i64,
) -> Result<Through, BindFault>
    requires { place < length flat.now.places }
    ensures { IsJudged (kind_fault flat.now place row.now (Delay from.now edge to.now value)) (λ t. (through_of flat.now row.now (Delay from.now edge to.now value) ≡ Some t) × IsThroughWithin (length flat.now.pins) t) result }
{
    leaf(alloc, flat, place, row)?;
    let from = own_pin(alloc, flat, place, row, false, from.as_slice())?;
    let to = own_pin(alloc, flat, place, row, true, to.as_slice())?;
    Ok(Through {
        from,
        edge,
        to,
        value,
    })
}

/// A check of two inputs of a leaf.
pub fn setup(
    alloc: Global,
    flat: &Flat,
    place: u32,
    row: &SdfRow,
    pin: &Text,
    clock: &Text,
    edge: Option<Edge>,
    value: i64,
) -> Result<Setup, BindFault>
    requires { place < length flat.now.places }
    ensures { IsJudged (kind_fault flat.now place row.now (SetupRow pin.now clock.now edge value)) (λ s. (setup_of flat.now row.now (SetupRow pin.now clock.now edge value) ≡ Some s) × IsSetupWithin (length flat.now.pins) s) result }
{
    leaf(alloc, flat, place, row)?;
    let pin = own_pin(alloc, flat, place, row, false, pin.as_slice())?;
    let clock = own_pin(alloc, flat, place, row, false, clock.as_slice())?;
    Ok(Setup {
        pin,
        clock,
        edge,
        value,
    })
}

/// A delay between two pins.
pub fn along(
    alloc: Global,
    flat: &Flat,
    place: u32,
    row: &SdfRow,
    from: &Text,
    to: &Text,
    value: i64,
) -> Result<Along, BindFault>
    ensures { IsJudged (kind_fault flat.now place row.now (WireRow from.now to.now value)) (λ x. (along_of flat.now row.now (WireRow from.now to.now value) ≡ Some x) × IsAlongWithin (length flat.now.pins) x) result }
{
    let from = any_pin(alloc, flat, row, from.as_slice())?;
    let to = any_pin(alloc, flat, row, to.as_slice())?;
    Ok(Along { from, to, value })
}

/// What a row says at its place.
fn kind(alloc: Global, flat: &Flat, place: u32, row: &SdfRow) -> Result<Entry, BindFault>
    requires { place < length flat.now.places }
    ensures { IsJudged (kind_fault flat.now place row.now row.now.kind) (IsEntryOf flat.now row.now) result }
{
    match &row.kind {
        SdfKind::Cell => Ok(Entry::Nothing),
        SdfKind::Delay {
            from,
            edge,
            to,
            value,
        } => {
            let through = through(alloc, flat, place, row, from, *edge, to, *value)?;
            Ok(Entry::Leaf(through))
        }
        SdfKind::Wire { from, to, value } => {
            let along = along(alloc, flat, place, row, from, to, *value)?;
            Ok(Entry::Net(along))
        }
        SdfKind::Setup {
            pin,
            clock,
            edge,
            value,
        } => {
            let setup = setup(alloc, flat, place, row, pin, clock, *edge, *value)?;
            Ok(Entry::Checked(setup))
        }
    }
}

/// What a row says, or why its names refuse it.
pub fn named(alloc: Global, flat: &Flat, row: &SdfRow) -> Result<Entry, BindFault>
    ensures { IsJudged (name_fault flat.now row.now) (IsEntryOf flat.now row.now) result }
{
    let Some(place) = place_of(flat, row) else {
        return match copied(alloc, row.instance.as_slice()) {
            Ok(name) => Err(BindFault::UnknownInstance(name)),
            Err(_) => Err(BindFault::NoMemory),
        };
    };
    if !is_cell(flat, place, row) {
        return match copied(alloc, row.instance.as_slice()) {
            Ok(name) => Err(BindFault::WrongCell(name)),
            Err(_) => Err(BindFault::NoMemory),
        };
    }
    kind(alloc, flat, place, row)
}

/// The refusal of a row whose two pins aren't on one net.
fn apart(alloc: Global, row: &SdfRow) -> BindFault
    requires { IsWireRow row.now.kind }
    ensures { IsApartFault row.now row.now.kind result }
{
    let SdfKind::Wire { from, to, .. } = &row.kind else {
        unreachable!()
    };
    let Ok(from) = pin_text(alloc, row, from.as_slice()) else {
        return BindFault::NoMemory;
    };
    match pin_text(alloc, row, to.as_slice()) {
        Ok(to) => BindFault::NotOneNet(from, to),
        Err(_) => BindFault::NoMemory,
    }
}

/// Whether wires join the pins of a delay along wires.
fn is_joined(forest: &WireForest, entry: Entry) -> bool
    requires { IsEntryWithin (pin_count forest.now) entry }
    ensures { AreEntryJoined (drive forest.now) entry result }
{
    match entry {
        Entry::Net(along) => forest.joins(along.from, along.to),
        _ => true,
    }
}

/// What a row adds to the entries, or why it is refused.
pub fn entry_of(
    alloc: Global,
    flat: &Flat,
    forest: &WireForest,
    row: &SdfRow,
) -> Result<Entry, BindFault>
    requires pins { pin_count forest.now ≡ length flat.now.pins }
    requires drives { (v : ℕ) → drive forest.now v ≡ driver_of flat.now.wires v }
    ensures { IsRowAnswer flat.now row.now result }
{
    let entry = named(alloc, flat, row)?;
    let _wires = flat.wires();
    if !is_joined(forest, entry) {
        return Err(apart(alloc, row));
    }
    Ok(entry)
}
