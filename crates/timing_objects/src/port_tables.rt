ghost use Rattle.std.specs.Prelude.{◌≡◌, ◌<◌, ◌≤◌, length, map, filter, find, All, AllPairs, IfOk};
ghost use Rattle.std.specs.Option.{option_map};
ghost use Rattle.std.specs.Str.{bytes_eq};
ghost use Rattle.bud_design.specs.Lists.{only};
ghost use Rattle.bud_design.specs.Names.{meaning};
ghost use Rattle.text_tables.specs.Standings.{IsOf};
ghost use Rattle.timing_objects.specs.PortNames.{numbers, named_as, HasPlain};
ghost use Rattle.timing_objects.specs.PortTables.{IsPortTable, IsTableOf};

use crate::port_names::{PortName, PortNames, port_names};
use bud_base::PinId;
use bud_design::Pin;
use std::alloc::{AllocError, Global};
use text_tables::TextTable;

/// The names of the top's ports, found by their printed and by their plain forms.
#[derive(Drop)]
pub struct PortTable {
    names: PortNames,
    printed: TextTable,
    plain: TextTable,
}

/// The table of the names in their printed form.
fn printed_table(alloc: Global, names: &[PortName]) -> Result<TextTable, AllocError>
    ensures { IfOk result (IsOf (map (λ n. n.printed) names.now)) }
{
    let mut table = TextTable::new(alloc);
    for (place, name) in names.iter().enumerate() {
        let Ok(number) = u32::try_from(place) else {
            return Err(AllocError);
        };
        table.enter(alloc, name.printed.as_slice(), number)?;
    }
    Ok(table)
}

/// The table of the names in their plain form.
fn plain_table(alloc: Global, names: &[PortName]) -> Result<TextTable, AllocError>
    ensures { IfOk result (IsOf (map (λ n. n.plain) names.now)) }
{
    let mut table = TextTable::new(alloc);
    for (place, name) in names.iter().enumerate() {
        let Ok(number) = u32::try_from(place) else {
            return Err(AllocError);
        };
        table.enter(alloc, name.plain.as_slice(), number)?;
    }
    Ok(table)
}

/// The names with their tables.
fn table_of(alloc: Global, names: PortNames) -> Result<PortTable, AllocError>
    ensures { IfOk result (IsTableOf names) }
{
    let printed = printed_table(alloc, names.as_slice())?;
    let plain = plain_table(alloc, names.as_slice())?;
    Ok(PortTable {
        names,
        printed,
        plain,
    })
}

/// The names of the top's ports, with their tables.
pub fn port_table(alloc: Global, pins: &[Pin]) -> Result<PortTable, AllocError>
    requires few { length pins.now < 2147483648 }
    requires together { AllPairs (λ u v. u.place ≤ v.place) pins.now }
    ensures { IfOk result (IsPortTable pins.now) }
{
    let names = port_names(alloc, pins)?;
    table_of(alloc, names)
}

/// The first with this printed name.
fn with_printed<'a>(names: &'a [PortName], table: &TextTable, name: &[u8]) -> Option<&'a PortName>
    requires { IsOf (map (λ n. n.printed) names.now) table.now }
    ensures { option_map (λ n. n.now) result ≡ find (λ n. bytes_eq n.printed name.now) names.now }
{
    match table.find(name) {
        Some(standing) => Some(&names[standing.first as usize]),
        None => None,
    }
}

/// The only one with this plain name.
fn with_plain<'a>(names: &'a [PortName], table: &TextTable, name: &[u8]) -> Option<&'a PortName>
    requires { IsOf (map (λ n. n.plain) names.now) table.now }
    ensures { option_map (λ n. n.now) result ≡ only (filter (λ n. bytes_eq n.plain name.now) names.now) }
{
    let Some(standing) = table.find(name) else {
        return None;
    };
    if !standing.alone {
        return None;
    }
    Some(&names[standing.first as usize])
}

/// The port bits that a name means: those with this printed name, else the only ones with this plain name.
pub fn find_port<'a>(table: &'a PortTable, name: &[u8]) -> Option<&'a [PinId]>
    requires plain { All HasPlain table.now.names }
    requires table { IsTableOf table.now.names table.now }
    ensures { option_map (λ bits. numbers bits.now) result ≡ meaning (map named_as table.now.names) name.now }
{
    let names = table.names.as_slice();
    if let Some(found) = with_printed(names, &table.printed, name) {
        return Some(found.pins.as_slice());
    }
    match with_plain(names, &table.plain, name) {
        Some(found) => Some(found.pins.as_slice()),
        None => None,
    }
}
