ghost use Rattle.std.specs.Prelude.{◌≡◌, ◌↔◌, ℕ, ◌<◌, ◌≤◌, [], false, length, slice_index_or, All, Contains, Some, IfOk, OnOk, IsTrue};
ghost use Rattle.bud_design.specs.Lists.{Lists};
ghost use Rattle.module_nets.specs.Nets.{module_called};
ghost use Rattle.module_nets.specs.Refusals.{IsMemory};
ghost use Rattle.module_nets.specs.Tops.{module_at};
ghost use Rattle.std.specs.Option.{option_map};
ghost use Rattle.elaborations.specs.Elaborations.{top_entry, top_built, enter, ends_before, all_wires, IsElaborateAnswer};
ghost use Rattle.elaborations.specs.Ports.{HasPortsOnce};
ghost use Rattle.hierarchy.specs.Elaborating.{IsWalkFrom, IsWalkAnswer, IsElaborated, IsDesignOf};
ghost use Rattle.hierarchy.specs.Walking.{IsWalk};

use crate::walks::{Survey, Trail, Walk, enter_module, put_inside, put_module};
use bud_base::Text;
use bud_design::{Pins, Places, Wires};
use bud_syntax::Module;
use design_wires::{LocalWires, design_wires};
use flat_design::Flat;
use module_nets::{ElabFault, Library};
use std::alloc::Global;

/// No wires of so many modules.
fn no_wires(alloc: Global, count: usize) -> Result<Vec<LocalWires>, ElabFault>
    ensures size { IfOk result (λ wires. length wires.items ≡ count) }
    ensures none { IfOk result (λ wires. (n : ℕ) → slice_index_or wires.items n [] ≡ []) }
    ensures memory { IsMemory result }
{
    let mut wires = Vec::new(alloc);
    for _ in 0..count {
        if wires.push(LocalWires::new(alloc)).is_err() {
            return Err(ElabFault::NoMemory);
        }
    }
    Ok(wires)
}

/// No module that was entered, of so many.
fn none_known(alloc: Global, count: usize) -> Result<Vec<bool>, ElabFault>
    ensures size { IfOk result (λ known. length known.items ≡ count) }
    ensures none { IfOk result (λ known. (n : ℕ) → slice_index_or known.items n false ≡ false) }
    ensures memory { IsMemory result }
{
    let mut known = Vec::new(alloc);
    for _ in 0..count {
        if known.push(false).is_err() {
            return Err(ElabFault::NoMemory);
        }
    }
    Ok(known)
}

/// The walk before the top.
fn begun(alloc: Global, library: &Library<'_>, kind: usize) -> Result<Walk, ElabFault>
    requires kind { kind < length library.now.modules.now }
    ensures begun { IfOk result (IsWalkFrom library.now.modules.now kind) }
    ensures memory { IsMemory result }
{
    let known = none_known(alloc, library.modules.len())?;
    let wires = no_wires(alloc, library.modules.len())?;
    let mut line = Vec::new(alloc);
    if line.push(kind).is_err() {
        return Err(ElabFault::NoMemory);
    }
    Ok(Walk {
        places: Vec::new(alloc),
        pins: Vec::new(alloc),
        kinds: Vec::new(alloc),
        count: 0,
        trail: Trail {
            path: Vec::new(alloc),
            line,
        },
        survey: Survey { known, wires },
    })
}

/// Walks from the top over all instances.
fn walked(alloc: Global, library: &Library<'_>, kind: usize) -> Result<Walk, ElabFault>
    requires few { length library.now.modules.now < 2147483648 }
    requires kind { kind < length library.now.modules.now }
    requires plain { (module_at library.now.modules.now kind).leaf ≡ false }
    requires called { module_called library.now.modules.now (module_at library.now.modules.now kind).name ≡ Some (module_at library.now.modules.now kind) }
    ensures { IsWalkAnswer library.now.modules.now (enter 257 library.now.modules.now (top_entry (module_at library.now.modules.now kind)) 0 (top_built (module_at library.now.modules.now kind))) result }
{
    let mut walk = begun(alloc, library, kind)?;
    let bits = library.header(kind).bits;
    let count = match enter_module(alloc, library, &walk.trail, &mut walk.survey, kind, bits) {
        Ok(count) => count,
        Err(fault) => return Err(fault),
    };
    walk.count = count;
    let here = put_module(
        alloc,
        library,
        &mut walk,
        kind as u32,
        Text::new(alloc),
        None,
    )?;
    match put_inside(alloc, library, &mut walk, kind, here, 256) {
        Ok(()) => Ok(walk),
        Err(fault) => Err(fault),
    }
}

/// Whether a list has as many elements as a flat design can number.
fn is_long(length: usize) -> bool
    ensures { IsTrue result ↔ (2147483648 ≤ length) }
{
    length >= 2147483648
}

/// The wires of what was walked over.
fn joined(alloc: Global, library: &Library<'_>, walk: &Walk) -> Result<Wires, ElabFault>
    requires walk { IsWalk library.now.modules.now walk.now }
    requires built { IsElaborated library.now.modules.now walk.now }
    ensures wires { IfOk result (Lists ends_before (Contains (all_wires 4194304 library.now.modules.now walk.now.places.items walk.now.pins.items))) }
    ensures few_places { OnOk result (length walk.now.places.items < 2147483648) }
    ensures few_pins { OnOk result (length walk.now.pins.items < 2147483648) }
    ensures memory { IsMemory result }
{
    let places = walk.places.as_slice();
    let pins = walk.pins.as_slice();
    let kinds = walk.kinds.as_slice();
    let locals = walk.survey.wires.as_slice();
    if is_long(places.len()) || is_long(pins.len()) {
        return Err(ElabFault::NoMemory);
    }
    match design_wires(alloc, places, pins, kinds, locals) {
        Ok(wires) => Ok(wires),
        Err(_) => Err(ElabFault::NoMemory),
    }
}

/// The design that was walked over, with its wires.
fn finished(alloc: Global, library: &Library<'_>, walk: Walk) -> Result<Flat, ElabFault>
    requires ports { All HasPortsOnce library.now.modules.now }
    requires walk { IsWalk library.now.modules.now walk }
    requires built { IsElaborated library.now.modules.now walk }
    ensures flat { IfOk result (IsDesignOf library.now.modules.now walk) }
    ensures memory { IsMemory result }
{
    let wires = joined(alloc, library, &walk)?;
    if is_long(wires.len()) {
        return Err(ElabFault::NoMemory);
    }
    let Walk { places, pins, .. } = walk;
    match Flat::new(Places::from_vec(places), Pins::from_vec(pins), wires) {
        Ok(flat) => Ok(flat),
        Err(_) => Err(ElabFault::NoMemory),
    }
}

/// The flat design of a netlist, or the first refusal.
///
/// The top is the module that the name means, or the one module that is no cell and that no module instantiates. Places
/// are numbered from the top, 0, on, each plain instance before those inside it; pins are their port bits; each wire leads
/// from the pin that drives a load to it, assigns followed. The names of a place and of a pin's port are the printed forms
/// of identifiers.
///
/// It takes time linear in the text of the modules and the size of the design.
///
/// # Errors
///
/// The first refusal of `ElabFault`, in the order in which the instances are entered; NoMemory for want of memory.
pub fn elaborate(alloc: Global, modules: &[Module], top: Option<&[u8]>) -> Result<Flat, ElabFault>
    requires few { length modules.now < 2147483648 }
    requires ports { All HasPortsOnce modules.now }
    ensures { IsElaborateAnswer modules.now (option_map (λ n. n.now) top.entry) result }
{
    let library = Library::new(alloc, modules)?;
    let kind = module_nets::top(alloc, &library, top)?;
    let walk = match walked(alloc, &library, kind) {
        Ok(walk) => walk,
        Err(fault) => return Err(fault),
    };
    match finished(alloc, &library, walk) {
        Ok(flat) => Ok(flat),
        Err(fault) => Err(fault),
    }
}
