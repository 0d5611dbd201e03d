ghost use Rattle.std.specs.Prelude.{◌≡◌, ◌<◌, ◌+◌, ℕ, List, [], length, sum_by, reverse, map, find, Some, All, OnOk, IfOk, IfSome, ◌∷◌, ◌++◌};
ghost use Rattle.std.specs.Option.{option_map};
ghost use Rattle.bud_design.specs.Lists as lists;
ghost use Rattle.module_nets.specs.Entering as entering;
ghost use Rattle.module_nets.specs.Entering.{body_fault};
ghost use Rattle.module_nets.specs.Judging as judging;
ghost use Rattle.module_nets.specs.Judging.{entry_at, entry_in, linked_by, Flags};
ghost use Rattle.module_nets.specs.Nets.{module_called};
ghost use Rattle.module_nets.specs.Numbers.{IsNamedApart, capped, declared_names};
ghost use Rattle.module_nets.specs.Refusals.{Answers, IsMemory};
ghost use Rattle.module_nets.specs.Tops.{module_at};

use crate::faults::ElabFault;
use crate::headers::{Header, range_width};
use crate::libraries::Library;
use crate::names::{printed, printed_below};
use crate::nets::NetTable;
use crate::tables::{Names, first_again};
use crate::widths::first_net;
use bud_base::Text;
use bud_syntax::{Assign, Dir, Instance, Link, Module, Piece, Port};
use std::alloc::Global;

/// The first port of both directions.
fn first_inout(ports: &[Port]) -> Option<&Port>
    ensures { option_map (λ p. p.now) result ≡ find (λ p. entering.is_inout p.dir) ports.now }
{
    for port in ports {
        if port.dir == Dir::Inout {
            return Some(port);
        }
    }
    None
}

/// Refuses a module with a port of both directions.
pub fn refuse_inout(alloc: Global, module: &Module) -> Result<(), ElabFault>
    ensures { Answers (entering.inout_port «module».now) result }
{
    match first_inout(module.ports.as_slice()) {
        None => Ok(()),
        Some(port) => Err(ElabFault::InoutPort(printed(alloc, port.name.as_slice())?)),
    }
}

/// Refuses the top where it has a port of both directions.
fn refuse_top_inout(alloc: Global, module: &Module, path: &[Text]) -> Result<(), ElabFault>
    ensures { Answers (entering.top_inout (entry_at «module».now path.now)) result }
{
    if path.is_empty() {
        refuse_inout(alloc, module)
    } else {
        Ok(())
    }
}

/// How many names a module declares, or `usize::MAX` where they are more.
fn declared_count(module: &Module) -> usize {
    module
        .ports
        .len()
        .saturating_add(module.nets.len())
        .saturating_add(module.instances.len())
}

/// The first name that a module declares and that stands before.
fn name_again<'m>(alloc: Global, module: &'m Module) -> Result<Option<&'m [u8]>, ElabFault>
    ensures again { IfOk result (λ r. option_map (λ n. n.now) r ≡ lists.first_again [] (declared_names «module».now)) }
    ensures memory { IsMemory result }
{
    let Ok(mut names) = Names::with_capacity(alloc, declared_count(module)) else {
        return Err(ElabFault::NoMemory);
    };
    let again = first_again(&mut names, module.ports.as_slice())?;
    if again.is_some() {
        return Ok(again);
    }
    let again = first_again(&mut names, module.nets.as_slice())?;
    if again.is_some() {
        return Ok(again);
    }
    first_again(&mut names, module.instances.as_slice())
}

/// Refuses a module that declares a name twice.
pub fn refuse_name_twice(alloc: Global, module: &Module, path: &[Text]) -> Result<(), ElabFault>
    ensures { Answers (entering.name_twice (entry_at «module».now path.now)) result }
{
    match name_again(alloc, module)? {
        None => Ok(()),
        Some(name) => Err(ElabFault::NameTwice(printed_below(alloc, path, name)?)),
    }
}

/// Refuses a select outside its net's range, the pieces being numbered from `first` on.
fn refuse_select(
    alloc: Global,
    nets: &NetTable<'_>,
    path: &[Text],
    pieces: &[Piece],
    first: usize,
) -> Result<(), ElabFault>
    ensures { Answers (entering.select_fault (entry_at nets.now.module.now path.now) pieces.now) result }
{
    match nets.first_bad_select(pieces, first) {
        None => Ok(()),
        Some(name) => Err(ElabFault::Select(printed_below(alloc, path, name)?)),
    }
}

/// Whether pieces are as wide as a port, or none.
fn fits(nets: &NetTable<'_>, port: &Port, pieces: &[Piece], first: usize) -> bool
    ensures { result ≡ judging.fits nets.now.module.now port.now pieces.now }
{
    if pieces.is_empty() {
        return true;
    }
    nets.width(pieces, first) == range_width(port.range) as u128
}

/// Refuses what is joined to a port, unless it is open or as wide as the port.
fn refuse_joined(
    alloc: Global,
    nets: &NetTable<'_>,
    path: &[Text],
    port: &Port,
    pieces: &[Piece],
    first: usize,
) -> Result<(), ElabFault>
    ensures { Answers (judging.port_fault (entry_at nets.now.module.now path.now) port.now pieces.now) result }
{
    refuse_select(alloc, nets, path, pieces, first)?;
    if fits(nets, port, pieces, first) {
        return Ok(());
    }
    Err(ElabFault::Width(printed(alloc, port.name.as_slice())?))
}

/// The port of a name that no link before named; it is flagged. It may well be the port at the place `near`.
fn free_port<'h>(
    header: &'h Header<'_>,
    flags: &mut [bool],
    name: &[u8],
    near: usize,
) -> Option<&'h Port>
    requires { length flags.old ≡ length header.now.module.now.ports }
    ensures port { (linked : List (List ℕ)) → Flags header.now.module.now linked flags.old
        → option_map (λ p. p.now) result ≡ entering.free_port linked header.now.module.now.ports name.now }
    ensures flags { (linked : List (List ℕ)) → Flags header.now.module.now linked flags.old
        → IfSome result (λ p. Flags header.now.module.now (name.now ∷ linked) flags.new) }
{
    let place = header.find(name, near)?;
    if flags[place] {
        return None;
    }
    flags[place] = true;
    Some(header.port(place))
}

/// The port at a place.
fn port_in_place(ports: &[Port], k: usize) -> Option<&Port>
    ensures { option_map (λ p. p.now) result ≡ entering.port_in_place ports.now k }
{
    if ports.len() <= k {
        return None;
    }
    Some(&ports[k])
}

/// Refuses a link of an instance, behind links to the flagged ports; its pieces are numbered from `first` on.
fn refuse_link(
    alloc: Global,
    nets: &NetTable<'_>,
    path: &[Text],
    header: &Header<'_>,
    instance: &[u8],
    flags: &mut [bool],
    k: usize,
    link: &Link,
    first: usize,
) -> Result<(), ElabFault>
    requires { length flags.old ≡ length header.now.module.now.ports }
    ensures answer { (linked : List (List ℕ)) → Flags header.now.module.now linked flags.old
        → Answers (judging.link_fault (entry_at nets.now.module.now path.now) header.now.module.now.ports instance.now linked k link.now) result }
    ensures flags { (linked : List (List ℕ)) → Flags header.now.module.now linked flags.old
        → OnOk result (Flags header.now.module.now (linked_by link.now linked) flags.new) }
{
    match link {
        Link::Named(port, pieces) => {
            let name = port.as_slice();
            match free_port(header, flags, name, k) {
                None => Err(ElabFault::UnknownPort(printed(alloc, name)?)),
                Some(port) => refuse_joined(alloc, nets, path, port, pieces.as_slice(), first),
            }
        }
        Link::Placed(pieces) => {
            match port_in_place(header.module.ports.as_slice(), k) {
                None => Err(ElabFault::UnknownPort(printed_below(alloc, path, instance)?)),
                Some(port) => refuse_joined(alloc, nets, path, port, pieces.as_slice(), first),
            }
        }
    }
}

/// Refuses the links of an instance, which is the one of this number, each in order.
fn refuse_links(
    alloc: Global,
    nets: &NetTable<'_>,
    path: &[Text],
    header: &Header<'_>,
    instance: &Instance,
    number: usize,
) -> Result<(), ElabFault>
    ensures { Answers (entering.link_faults (entry_at nets.now.module.now path.now) header.now.module.now.ports instance.now.name [] 0 instance.now.links) result }
{
    let Ok(mut flags) = vec![in alloc; false; header.module.ports.len()] else {
        return Err(ElabFault::NoMemory);
    };
    for (k, link) in instance.links.as_slice().iter().enumerate() {
        refuse_link(
            alloc,
            nets,
            path,
            header,
            instance.name.as_slice(),
            flags.as_mut_slice(),
            k,
            link,
            nets.piece(number, k),
        )?;
    }
    Ok(())
}

/// Whether a module of this name is among those of these numbers.
fn is_entered(modules: &[Module], entered: &[usize], name: &[u8]) -> bool
    requires { All (λ n. n < length modules.now) entered.now }
    ensures { result ≡ lists.has_name (map (λ n. (module_at modules.now n).name) (reverse entered.now)) name.now }
{
    for number in entered {
        if name == modules[*number].name.as_slice() {
            return true;
        }
    }
    false
}

/// Refuses an instance, which is the one of this number: its module, unless it is known, is not being entered and has no port of both
/// directions; then its links. Its module may well be the one at the place `near`.
fn refuse_instance(
    alloc: Global,
    library: &Library<'_>,
    nets: &NetTable<'_>,
    path: &[Text],
    entered: &[usize],
    instance: &Instance,
    number: usize,
    near: usize,
) -> Result<(), ElabFault>
    requires { All (λ n. n < length library.now.modules.now) entered.now }
    ensures { Answers (entering.instance_fault library.now.modules.now (entry_in library.now.modules.now nets.now.module.now path.now entered.now) instance.now) result }
{
    let name = instance.module.as_slice();
    let Some(header) = library.child(name, near) else {
        return Err(ElabFault::UnknownModule(printed(alloc, name)?));
    };
    if is_entered(library.modules, entered, name) {
        return Err(ElabFault::Recursive(printed(alloc, name)?));
    }
    refuse_inout(alloc, header.module)?;
    refuse_links(alloc, nets, path, header, instance, number)
}

/// Refuses the instances of a module, which is the one of this number, each in order.
fn refuse_instances(
    alloc: Global,
    library: &Library<'_>,
    nets: &NetTable<'_>,
    path: &[Text],
    entered: &[usize],
    number: usize,
) -> Result<(), ElabFault>
    requires { All (λ n. n < length library.now.modules.now) entered.now }
    ensures { Answers (lists.first_some (entering.instance_fault library.now.modules.now (entry_in library.now.modules.now nets.now.module.now path.now entered.now)) nets.now.module.now.instances) result }
{
    for (k, instance) in nets.module.instances.as_slice().iter().enumerate() {
        refuse_instance(
            alloc,
            library,
            nets,
            path,
            entered,
            instance,
            k,
            library.guess(number, k),
        )?;
    }
    Ok(())
}

/// Refuses a select outside its net's range on either side of an assign.
fn refuse_selects(
    alloc: Global,
    nets: &NetTable<'_>,
    path: &[Text],
    assign: &Assign,
) -> Result<(), ElabFault>
    ensures { Answers (entering.select_fault (entry_at nets.now.module.now path.now) (assign.now.left ++ assign.now.right)) result }
{
    refuse_select(alloc, nets, path, assign.left.as_slice(), usize::MAX)?;
    refuse_select(alloc, nets, path, assign.right.as_slice(), usize::MAX)
}

/// Whether the sides of an assign are as wide as one another.
fn are_equal(nets: &NetTable<'_>, assign: &Assign) -> bool
    ensures { result ≡ judging.are_equal nets.now.module.now assign.now }
{
    nets.width(assign.left.as_slice(), usize::MAX)
        == nets.width(assign.right.as_slice(), usize::MAX)
}

/// Refuses an assign between sides of different widths.
fn refuse_width(
    alloc: Global,
    nets: &NetTable<'_>,
    path: &[Text],
    assign: &Assign,
) -> Result<(), ElabFault>
    ensures { Answers (entering.assign_width (entry_at nets.now.module.now path.now) assign.now) result }
{
    if are_equal(nets, assign) {
        return Ok(());
    }
    match first_net(assign.left.as_slice()) {
        None => Ok(()),
        Some(name) => Err(ElabFault::Width(printed_below(alloc, path, name)?)),
    }
}

/// Refuses an assign: a select outside its net's range, or sides of different widths.
fn refuse_assign(
    alloc: Global,
    nets: &NetTable<'_>,
    path: &[Text],
    assign: &Assign,
) -> Result<(), ElabFault>
    ensures { Answers (entering.assign_fault (entry_at nets.now.module.now path.now) assign.now) result }
{
    refuse_selects(alloc, nets, path, assign)?;
    refuse_width(alloc, nets, path, assign)
}

/// Refuses the assigns of a module, each in order.
fn refuse_assigns(alloc: Global, nets: &NetTable<'_>, path: &[Text]) -> Result<(), ElabFault>
    ensures { Answers (lists.first_some (entering.assign_fault (entry_at nets.now.module.now path.now)) nets.now.module.now.assigns) result }
{
    for assign in nets.module.assigns.as_slice() {
        refuse_assign(alloc, nets, path, assign)?;
    }
    Ok(())
}

/// What an instance adds to the count: the bits of its module's ports, at least 1; 0 where the module isn't known. Its module may well be
/// the one at the place `near`.
#[inline]
fn instance_count(library: &Library<'_>, instance: &Instance, near: usize) -> usize
    ensures { result ≡ capped (entering.instance_count (module_called library.now.modules.now instance.now.module)) }
{
    match library.child(instance.module.as_slice(), near) {
        None => 0,
        Some(header) => header.bits.max(1),
    }
}

/// What the instances of the module of a number add to the count.
fn instances_count(library: &Library<'_>, instances: &[Instance], number: usize) -> usize
    ensures { result ≡ capped (sum_by (λ i. entering.instance_count (module_called library.now.modules.now i.module)) instances.now) }
{
    let mut count: usize = 0;
    for (k, instance) in instances.iter().enumerate() {
        count = count.saturating_add(instance_count(library, instance, library.guess(number, k)));
    }
    count
}

/// What a module adds to the count as it is entered, or `usize::MAX` where it adds more: the bits of its nets that are
/// no ports, and those of its instances.
fn entered_count(library: &Library<'_>, nets: &NetTable<'_>, number: usize) -> usize
    ensures { result ≡ capped (entering.entered_count library.now.modules.now nets.now.module.now) }
{
    nets.local.saturating_add(instances_count(library, nets.module.instances.as_slice(), number))
}

/// A module that is entered, with the count behind it.
#[derive(Drop)]
pub struct Entered<'m> {
    pub nets: NetTable<'m>,
    pub count: usize,
}

/// Enters the top, at the empty path, or a plain instance: what is refused of it but for its drivers, in the stated
/// order. `path` has the printed names of the instances from below the top down to it, `entered` the numbers of the
/// modules that are being entered, the top's first and its own last, and `count` the count before it.
pub fn enter<'m>(
    alloc: Global,
    library: &Library<'m>,
    number: usize,
    path: &[Text],
    entered: &[usize],
    count: usize,
) -> Result<Entered<'m>, ElabFault>
    requires number { number < length library.now.modules.now }
    requires entered { All (λ n. n < length library.now.modules.now) entered.now }
    ensures answer { let modules = library.now.modules.now in let m = module_at modules number in
        Answers (body_fault modules (entry_in modules m path.now entered.now) (count + entering.entered_count modules m)) result }
    ensures nets { IfOk result (λ e. e.nets.module.now ≡ module_at library.now.modules.now number) }
    ensures count { IfOk result (λ e. e.count ≡ count + entering.entered_count library.now.modules.now (module_at library.now.modules.now number)) }
{
    let module = &library.modules[number];
    refuse_top_inout(alloc, module, path)?;
    refuse_name_twice(alloc, module, path)?;
    let nets = NetTable::new(alloc, module)?;
    let count = count.saturating_add(entered_count(library, &nets, number));
    if 4_194_304 < count {
        return Err(ElabFault::TooLarge(4_194_305));
    }
    refuse_instances(alloc, library, &nets, path, entered, number)?;
    refuse_assigns(alloc, &nets, path)?;
    Ok(Entered { nets, count })
}
