ghost use Rattle.std.specs.Prelude.{◌≡◌, ◌++◌, ◌≤◌, ◌<◌, ◌^◌, length, All, IfOk, OnOk, replicate};
ghost use Rattle.module_nets.specs.Nets.{joined_bits, module_called, pieces_of_link};
ghost use Rattle.net_drivers.specs.Appending.{Appends, AreNumbers, IsFine};
ghost use Rattle.net_drivers.specs.Links.{IsJoining};
ghost use Rattle.net_drivers.specs.Joints.{directions, joints, own_joints};
ghost use Rattle.net_drivers.specs.Joins.{IsJoined, AreJoined, AreJoinedIn, instance_at, joined_ports};

use crate::links::{Joining, link_of};
use crate::numbers::put_link;
use crate::slots::Joint;
use bud_base::Listed;
use bud_syntax::{Dir, Instance, Link, Port};
use module_nets::{Header, Library, NetTable, range_width};
use std::alloc::{AllocError, Global};

/// Appends a direction so many times.
fn put_direction(into: &mut Vec<Dir>, dir: Dir, count: usize) -> Result<(), AllocError>
    ensures { OnOk result (into.new.items ≡ into.old.items ++ replicate count dir) }
{
    for _bit in 0..count {
        into.push(dir)?;
    }
    Ok(())
}

/// Makes the list that of the directions of ports, bit by bit.
fn fill_directions(dirs: &mut Vec<Dir>, ports: &[Port]) -> Result<(), AllocError>
    ensures { OnOk result (dirs.new.items ≡ directions ports.now) }
{
    dirs.clear();
    for port in ports {
        put_direction(dirs, port.dir, range_width(port.range))?;
    }
    Ok(())
}

/// The port bits of a module, joined to its first net bits.
pub fn own_joints(alloc: Global, ports: &[Port]) -> Result<Vec<Joint>, AllocError>
    requires { length (directions ports.now) < 2 ^ 32 }
    ensures { IfOk result (λ own. own.items ≡ own_joints 0 (directions ports.now)) }
{
    let mut dirs = Vec::new(alloc);
    fill_directions(&mut dirs, ports)?;
    number_joints(alloc, dirs.as_slice())
}

/// Each direction with its place.
fn number_joints(alloc: Global, dirs: &[Dir]) -> Result<Vec<Joint>, AllocError>
    requires { length dirs.now < 2 ^ 32 }
    ensures { IfOk result (λ own. own.items ≡ own_joints 0 dirs.now) }
{
    let mut own = Vec::new(alloc);
    for (bit, dir) in dirs.iter().enumerate() {
        own.push(Joint {
            dir: *dir,
            bit: Some(bit as u32),
        })?;
    }
    Ok(own)
}

/// Directions and numbers side by side.
fn pair_joints(
    alloc: Global,
    dirs: &[Dir],
    numbers: &[Option<u32>],
) -> Result<Vec<Joint>, AllocError>
    ensures { IfOk result (λ pairs. pairs.items ≡ joints dirs.now numbers.now) }
{
    let mut pairs = Vec::with_capacity(alloc, dirs.len())?;
    for k in 0..dirs.len().min(numbers.len()) {
        pairs.push(Joint {
            dir: dirs[k],
            bit: numbers[k],
        })?;
    }
    Ok(pairs)
}

/// Appends the numbers of the net bits that the links of the instance of a number join to ports.
fn put_ports(
    table: &NetTable<'_>,
    header: &Header<'_>,
    ports: &[Port],
    links: &[Link],
    joining: &Joining,
    instance: usize,
    into: &mut Vec<Option<u32>>,
) -> Result<(), AllocError>
    requires small { table.now.bits ≤ 8388608 }
    requires ports { ports.now ≡ header.now.module.now.ports }
    requires fine { All (λ l. All (IsFine table.now.module.now) (pieces_of_link l)) links.now }
    requires joining { IsJoining header.now.module.now links.now joining.now.named.items joining.now.placed.items }
    ensures { OnOk result (Appends table.now.module.now (joined_ports 0 table.now.module.now links.now ports.now) into.old.items into.new.items) }
{
    for (place, port) in ports.iter().enumerate() {
        let number = link_of(header, links, joining, place, port);
        put_link(table, port, links, number, instance, into)?;
    }
    Ok(())
}

/// Makes the list that of the numbers of the net bits at the port bits of an instance, which may be the one of this number.
fn join_numbers(
    table: &NetTable<'_>,
    header: &Header<'_>,
    instance: &Instance,
    number: usize,
    joining: &mut Joining,
    numbers: &mut Vec<Option<u32>>,
) -> Result<(), AllocError>
    requires small { table.now.bits ≤ 8388608 }
    requires fine { All (λ l. All (IsFine table.now.module.now) (pieces_of_link l)) instance.now.links }
    ensures { OnOk result (AreNumbers table.now.module.now (joined_bits table.now.module.now header.now.module.now instance.now) numbers.new.items) }
{
    let links = instance.links.as_slice();
    let ports = header.module.ports.as_slice();
    joining.fill(header, links)?;
    numbers.clear();
    put_ports(table, header, ports, links, joining, number, numbers)?;
    Ok(())
}

/// Lists that are filled anew for each instance.
#[derive(Drop)]
struct Scratch {
    dirs: Vec<Dir>,
    numbers: Vec<Option<u32>>,
    joining: Joining,
}

impl Scratch {
    fn new(alloc: Global) -> Scratch {
        Scratch {
            dirs: Vec::new(alloc),
            numbers: Vec::new(alloc),
            joining: Joining::new(alloc),
        }
    }
}

/// The port bits of an instance of a known module, which may be the one of this number.
fn child_joints(
    alloc: Global,
    table: &NetTable<'_>,
    header: &Header<'_>,
    instance: &Instance,
    number: usize,
    scratch: &mut Scratch,
) -> Result<Vec<Joint>, AllocError>
    requires small { table.now.bits ≤ 8388608 }
    requires fine { All (λ l. All (IsFine table.now.module.now) (pieces_of_link l)) instance.now.links }
    ensures { IfOk result (λ pairs. IsJoined table.now.module.now instance.now (Some header.now.module.now) pairs.items) }
{
    fill_directions(&mut scratch.dirs, header.module.ports.as_slice())?;
    join_numbers(
        table,
        header,
        instance,
        number,
        &mut scratch.joining,
        &mut scratch.numbers,
    )?;
    let pairs = pair_joints(alloc, scratch.dirs.as_slice(), scratch.numbers.as_slice())?;
    Ok(pairs)
}

/// The port bits of an instance, none where its module isn't in the netlist. It may be the one of this number, and its module the one at
/// the place `near`.
fn instance_joints(
    alloc: Global,
    library: &Library<'_>,
    table: &NetTable<'_>,
    instance: &Instance,
    number: usize,
    near: usize,
    scratch: &mut Scratch,
) -> Result<Vec<Joint>, AllocError>
    requires small { table.now.bits ≤ 8388608 }
    requires fine { All (λ l. All (IsFine table.now.module.now) (pieces_of_link l)) instance.now.links }
    ensures { IfOk result (λ pairs. IsJoined table.now.module.now instance.now (module_called library.now.modules.now instance.now.«module») pairs.items) }
{
    match library.child(instance.module.as_slice(), near) {
        Some(header) => child_joints(alloc, table, header, instance, number, scratch),
        None => Ok(Vec::new(alloc)),
    }
}

/// The port bits of an instance.
pub type Joints = Listed<Joint>;

/// The port bits of each instance of a list, which may be that of the module of this number.
fn all_joints(
    alloc: Global,
    library: &Library<'_>,
    table: &NetTable<'_>,
    instances: &[Instance],
    number: usize,
) -> Result<Vec<Joints>, AllocError>
    requires small { table.now.bits ≤ 8388608 }
    requires fine { All (λ i. All (λ l. All (IsFine table.now.module.now) (pieces_of_link l)) i.links) instances.now }
    ensures { IfOk result (λ each. AreJoined library.now.modules.now table.now.module.now instances.now (length instances.now) each.items) }
{
    let mut scratch = Scratch::new(alloc);
    let mut each = Vec::with_capacity(alloc, instances.len())?;
    for (k, instance) in instances.iter().enumerate() {
        let near = library.guess(number, k);
        let pairs = instance_joints(alloc, library, table, instance, k, near, &mut scratch)?;
        each.push(Joints::from_vec(pairs))?;
    }
    Ok(each)
}

/// The port bits of the instances of a module.
#[derive(Drop)]
pub struct InstanceJoints<'j, 'm> {
    pub library: &'j Library<'m>,
    pub table: &'j NetTable<'m>,
    pub each: Vec<Joints>,
}

impl<'j, 'm> InstanceJoints<'j, 'm> {
    /// Joins the ports of each instance of a module, once. It may be the module of this number.
    pub fn new(
        alloc: Global,
        library: &'j Library<'m>,
        table: &'j NetTable<'m>,
        number: usize,
    ) -> Result<InstanceJoints<'j, 'm>, AllocError>
        requires small { table.now.bits ≤ 8388608 }
        requires fine { All (λ i. All (λ l. All (IsFine table.now.module.now) (pieces_of_link l)) i.links) table.now.module.now.instances }
        ensures library { IfOk result (λ joints. joints.library.now ≡ library.now) }
        ensures table { IfOk result (λ joints. joints.table.now ≡ table.now) }
        ensures joined { IfOk result (λ joints. AreJoinedIn library.now.modules.now table.now.module.now joints.each.items) }
    {
        let instances = table.module.instances.as_slice();
        let each = all_joints(alloc, library, table, instances, number)?;
        Ok(InstanceJoints {
            library,
            table,
            each,
        })
    }

    /// How many instances there are.
    pub fn count(&self) -> usize
        ensures { result ≡ length self.now.table.now.module.now.instances }
    {
        self.table.module.instances.len()
    }

    /// The port bits of the instance of a number.
    pub fn of(&self, number: usize) -> &[Joint]
        requires joined { AreJoinedIn self.now.library.now.modules.now self.now.table.now.module.now self.now.each.items }
        requires within { number < length self.now.table.now.module.now.instances }
        ensures { IsJoined self.now.table.now.module.now (instance_at self.now.table.now.module.now.instances number) (module_called self.now.library.now.modules.now (instance_at self.now.table.now.module.now.instances number).«module») result.now }
    {
        self.each[number].as_slice()
    }
}
