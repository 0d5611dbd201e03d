ghost use Rattle.std.specs.Prelude.{◌≡◌, ℕ, List, [], ◌∷◌, None, map, IfOk};
ghost use Rattle.std.specs.List.{flat_map};
ghost use Rattle.verilog_reader.specs.Answers.{GivesRead, IsMemory};
ghost use Rattle.verilog_reader.specs.Modules as modules;
ghost use Rattle.verilog_reader.specs.Modules.{Declaration};
ghost use Rattle.verilog_reader.specs.Tables.{known, seen, IsTable, IsDeclaring, AddsNets, declared_by};
ghost use Rattle.verilog_reader.specs.Surveys.{surveyed, nets_made, unit_of};
ghost use Rattle.verilog_reader.specs.declared.trees.HeaderPort.{HeaderPort};

use crate::left::copied;
use crate::readings::Stop;
use crate::surveys::Survey;
use crate::tables::{PortTable, earlier, enter, known};
use crate::trees::{Declared, HeaderPort, Item, Named};
use bud_syntax::{Dir, NetDecl, Nets, Port, Ports, Range};
use std::alloc::Global;

/// The second, where there is one.
#[inline]
fn or_before(before: Option<Declared>, own: Option<Declared>) -> Option<Declared>
    ensures { result ≡ modules.or_before before own }
{
    match own {
        None => before,
        Some(declared) => Some(declared),
    }
}

/// The fault so far, or this name where it is one that begins before.
#[inline]
fn noted<'t>(fault: Option<&'t Named>, is_fault: bool, named: &'t Named) -> Option<&'t Named>
    ensures { seen result ≡ modules.earlier (seen fault.entry) (modules.earliest (modules.one_if is_fault named.now)) }
{
    if is_fault {
        earlier(fault, Some(named))
    } else {
        fault
    }
}

/// Lists the ports of a header with the declarations in it, and the port that is listed twice and begins first.
fn list_ports<'t>(
    alloc: Global,
    header: &'t [HeaderPort],
) -> Result<(PortTable<'t>, Option<&'t Named>), Stop>
    ensures listed { IfOk result (λ r. IsTable header.now (modules.header_declarations None header.now) (known r.0)) }
    ensures fault { IfOk result (λ r. seen r.1 ≡ modules.earliest (modules.listed_again [] header.now)) }
    ensures stop { IsMemory result }
{
    let mut table = PortTable::new(alloc);
    let mut fault = None;
    let mut before = None;
    for port in header {
        let name = port.named.name.as_slice();
        before = or_before(before, port.declared);
        fault = noted(fault, known(&table, name).is_some(), &port.named);
        enter(&mut table, name, before)?;
    }
    Ok((table, fault))
}

/// Takes in the declaration of ports of these names.
fn declare_names<'t>(
    table: &mut PortTable<'t>,
    declared: Declared,
    names: &'t [Named],
    first_fault: Option<&'t Named>,
) -> Result<Option<&'t Named>, Stop>
    ensures { (listed : List HeaderPort) (before : List Declaration) → IsTable listed before (known table.old)
        → IsDeclaring listed before (modules.declarations_in declared names.now) (known table.new) (seen first_fault.entry) result }
{
    let mut fault = first_fault;
    for named in names {
        let name = named.name.as_slice();
        let Some(before) = known(table, name) else {
            return Err(Stop::Syntax(named.at));
        };
        fault = noted(fault, before.is_some(), named);
        enter(table, name, Some(declared))?;
    }
    Ok(fault)
}

/// Takes in the declarations of ports that an item makes.
fn declare_item<'t>(
    table: &mut PortTable<'t>,
    item: &'t Item,
    first_fault: Option<&'t Named>,
) -> Result<Option<&'t Named>, Stop>
    ensures { (listed : List HeaderPort) (before : List Declaration) → IsTable listed before (known table.old)
        → IsDeclaring listed before (modules.item_declarations item.now) (known table.new) (seen first_fault.entry) result }
{
    match item {
        Item::Ports(declared, names) => declare_names(
            table,
            *declared,
            names.as_slice(),
            first_fault,
        ),
        _ => Ok(first_fault),
    }
}

/// Takes in the declarations of ports in a body.
fn declare_items<'t>(
    table: &mut PortTable<'t>,
    items: &'t [Item],
    first_fault: Option<&'t Named>,
) -> Result<Option<&'t Named>, Stop>
    ensures { (listed : List HeaderPort) (before : List Declaration) → IsTable listed before (known table.old)
        → IsDeclaring listed before (flat_map modules.item_declarations items.now) (known table.new) (seen first_fault.entry) result }
{
    let mut fault = first_fault;
    for item in items {
        fault = declare_item(table, item, fault)?;
    }
    Ok(fault)
}

/// Whether two nets have the same bounds.
#[inline]
fn is_same_range(first: Option<Range>, second: Option<Range>) -> bool
    ensures { result ≡ modules.is_same_range first second }
{
    match (first, second) {
        (None, None) => true,
        (Some(a), Some(b)) => a.left == b.left && a.right == b.right,
        _ => false,
    }
}

/// Whether a wire may have this range beside the port's declaration.
#[inline]
fn suits(range: Option<Range>, declared: Option<Declared>) -> bool
    ensures { result ≡ modules.suits range declared }
{
    match declared {
        None => true,
        Some(first) => is_same_range(range, first.range),
    }
}

/// Adds a net, unless it repeats a port.
fn add_net(
    alloc: Global,
    table: &PortTable<'_>,
    constant: bool,
    range: Option<Range>,
    named: &Named,
    nets: &mut Vec<NetDecl>,
) -> Result<(), Stop>
    ensures { AddsNets (known table.now) (modules.nets_in constant range (named.now ∷ [])) nets.old.items nets.new.items result }
{
    let name = named.name.as_slice();
    let repeated = if constant { None } else { known(table, name) };
    if let Some(first) = repeated {
        if suits(range, first) {
            return Ok(());
        }
        return Err(Stop::Syntax(named.at));
    }
    let name = copied(alloc, name)?;
    let net = NetDecl {
        name,
        range,
        constant,
    };
    if nets.push(net).is_err() {
        return Err(Stop::NoMemory);
    }
    Ok(())
}

/// Adds nets of these names, but those that repeat ports.
fn add_nets(
    alloc: Global,
    table: &PortTable<'_>,
    constant: bool,
    range: Option<Range>,
    names: &[Named],
    nets: &mut Vec<NetDecl>,
) -> Result<(), Stop>
    ensures { AddsNets (known table.now) (modules.nets_in constant range names.now) nets.old.items nets.new.items result }
{
    for named in names {
        add_net(alloc, table, constant, range, named, nets)?;
    }
    Ok(())
}

/// Adds the nets that an item declares.
fn add_item_nets(
    alloc: Global,
    table: &PortTable<'_>,
    item: &Item,
    nets: &mut Vec<NetDecl>,
) -> Result<(), Stop>
    ensures { AddsNets (known table.now) (modules.item_nets item.now) nets.old.items nets.new.items result }
{
    match item {
        Item::Nets(constant, range, names) => {
            add_nets(alloc, table, *constant, *range, names.as_slice(), nets)
        }
        _ => Ok(()),
    }
}

/// Adds the nets that a body declares.
fn add_all_nets(
    alloc: Global,
    table: &PortTable<'_>,
    items: &[Item],
    nets: &mut Vec<NetDecl>,
) -> Result<(), Stop>
    ensures { AddsNets (known table.now) (flat_map modules.item_nets items.now) nets.old.items nets.new.items result }
{
    for item in items {
        add_item_nets(alloc, table, item, nets)?;
    }
    Ok(())
}

/// The first declaration of a name.
#[inline]
fn declared_by(table: &PortTable<'_>, name: &[u8]) -> Option<Declared>
    ensures { result ≡ declared_by (known table.now) name.now }
{
    match known(table, name) {
        Some(first) => first,
        None => None,
    }
}

/// A port of this name, by its first declaration.
fn made_port(alloc: Global, name: &[u8], declared: Option<Declared>) -> Result<Port, Stop>
    ensures made { IfOk result (λ port. port ≡ record { name = name.now; dir = modules.dir_in declared; range = modules.range_in declared }) }
    ensures stop { IsMemory result }
{
    let (dir, range) = match declared {
        Some(first) => (first.dir, first.range),
        None => (Dir::Input, None),
    };
    match copied(alloc, name) {
        Ok(name) => Ok(Port { name, dir, range }),
        Err(_) => Err(Stop::NoMemory),
    }
}

/// The ports of a header, and the earliest fault with those that have no direction.
fn made_ports<'t>(
    alloc: Global,
    table: &PortTable<'_>,
    header: &'t [HeaderPort],
    first_fault: Option<&'t Named>,
) -> Result<(Vec<Port>, Option<&'t Named>), Stop>
    ensures ports { IfOk result (λ r. r.0.items ≡ map (modules.port_of (declared_by (known table.now))) header.now) }
    ensures fault { IfOk result (λ r. seen r.1 ≡ modules.earlier (seen first_fault.entry) (modules.earliest (modules.undirected (declared_by (known table.now)) header.now))) }
    ensures stop { IsMemory result }
{
    let mut ports = Vec::new(alloc);
    let mut fault = first_fault;
    for port in header {
        let name = port.named.name.as_slice();
        let declared = declared_by(table, name);
        fault = noted(fault, declared.is_none(), &port.named);
        let made = made_port(alloc, name, declared)?;
        if ports.push(made).is_err() {
            return Err(Stop::NoMemory);
        }
    }
    Ok((ports, fault))
}

/// A copy of the name, where there is one.
fn copied_name(alloc: Global, fault: Option<&Named>) -> Result<Option<Named>, Stop>
    ensures copy { IfOk result (λ copy. copy ≡ seen fault.entry) }
    ensures stop { IsMemory result }
{
    let Some(named) = fault else {
        return Ok(None);
    };
    match copied(alloc, named.name.as_slice()) {
        Ok(name) => Ok(Some(Named { name, at: named.at })),
        Err(_) => Err(Stop::NoMemory),
    }
}

/// The nets that a body declares, but those that repeat ports.
fn made_nets(alloc: Global, table: &PortTable<'_>, items: &[Item]) -> Result<Nets, Stop>
    ensures { AddsNets (known table.now) (flat_map modules.item_nets items.now) [] (nets_made result) (unit_of result) }
{
    let mut nets = Vec::new(alloc);
    add_all_nets(alloc, table, items, &mut nets)?;
    Ok(Nets::from_vec(nets))
}

/// Surveys the ports and the nets of a module.
pub fn take_survey(alloc: Global, header: &[HeaderPort], items: &[Item]) -> Result<Survey, Stop>
    ensures { GivesRead (λ s. s) result (surveyed header.now items.now) }
{
    let (mut table, fault) = list_ports(alloc, header)?;
    let fault = declare_items(&mut table, items, fault)?;
    let nets = made_nets(alloc, &table, items)?;
    let (ports, fault) = made_ports(alloc, &table, header, fault)?;
    let fault = copied_name(alloc, fault)?;
    Ok(Survey {
        ports: Ports::from_vec(ports),
        nets,
        fault,
    })
}
