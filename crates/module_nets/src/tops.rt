ghost use Rattle.std.specs.Prelude.{◌≡◌, ◌<◌, ◌≤◌, ℕ, List, [], Some, None, length, map, drop, find, IfOk, IfSome, OnOk};
ghost use Rattle.std.specs.List.{flat_map, position_from};
ghost use Rattle.std.specs.Option.{option_map};
ghost use Rattle.std.specs.Str.{bytes_eq};
ghost use Rattle.bud_design.specs.Names.{printed};
ghost use Rattle.module_nets.specs.Refusals.{IsMemory};
ghost use Rattle.module_nets.specs.Tables.{holds, seen_behind, HasNames};
ghost use Rattle.module_nets.specs.Tops as tops;
ghost use Rattle.module_nets.specs.Tops.{IsTop, IsPlainNumber, instantiated, module_at};

use crate::faults::ElabFault;
use crate::libraries::Library;
use crate::names::{is_printed_as, printed};
use crate::tables::{Names, holds, note};
use bud_base::Text;
use bud_syntax::{Instance, Module};
use std::alloc::Global;

/// The place of the first module whose printed identifier is this name.
fn printed_number(modules: &[Module], name: &[u8]) -> Option<usize>
    ensures { result ≡ position_from (λ m. bytes_eq (printed m.name) name.now) 0 modules.now }
{
    for (k, module) in modules.iter().enumerate() {
        if is_printed_as(module.name.as_slice(), name) {
            return Some(k);
        }
    }
    None
}

/// The number of the module that a name means: the one whose printed identifier it is, else the one that has this name.
fn meant(library: &Library<'_>, name: &[u8]) -> Option<usize>
    ensures meaning { option_map (module_at library.now.modules.now) result ≡ tops.meant library.now.modules.now name.now }
    ensures within { IfSome result (λ k. k < length library.now.modules.now) }
{
    match printed_number(library.modules, name) {
        None => library.find(name, 0),
        Some(number) => Some(number),
    }
}

/// The number of the module that a name means, unless it is a cell.
fn plain_number(library: &Library<'_>, name: &[u8]) -> Option<usize>
    ensures { IsPlainNumber library.now.modules.now name.now result }
{
    let number = meant(library, name)?;
    if library.modules[number].leaf {
        return None;
    }
    Some(number)
}

/// The module that a name means, unless it is a cell.
fn named_top(alloc: Global, library: &Library<'_>, name: &[u8]) -> Result<usize, ElabFault>
    ensures { IsTop library.now.modules.now (Some name.now) result }
{
    if let Some(number) = plain_number(library, name) {
        return Ok(number);
    }
    match Text::from_slice(alloc, name) {
        Ok(copy) => Err(ElabFault::NoTop(Some(copy))),
        Err(_) => Err(ElabFault::NoMemory),
    }
}

/// Puts the names of the modules of instances into the set.
fn note_instances<'m>(names: &mut Names<'m>, instances: &'m [Instance]) -> Result<(), ElabFault>
    ensures noted { (seen : List (List ℕ)) → HasNames seen (holds names.old) → OnOk result (HasNames (seen_behind seen (map (λ i. i.«module») instances.now)) (holds names.new)) }
    ensures memory { IsMemory result }
{
    for instance in instances {
        note(names, instance.module.as_slice())?;
    }
    Ok(())
}

/// The names of the modules that are instantiated.
fn all_instantiated(alloc: Global, modules: &[Module]) -> Result<Names<'_>, ElabFault>
    ensures names { IfOk result (λ names. HasNames (instantiated modules.now) (holds names)) }
    ensures memory { IsMemory result }
{
    let mut names = Names::new(alloc);
    for module in modules {
        note_instances(&mut names, module.instances.as_slice())?;
    }
    Ok(names)
}

/// The place of the first module from a place on that is no cell and isn't instantiated.
fn root_from(modules: &[Module], names: &Names<'_>, from: usize) -> Option<usize>
    requires { from ≤ length modules.now }
    ensures place { result ≡ position_from (tops.is_root (holds names.now)) from (drop from modules.now) }
    ensures within { IfSome result (λ k. k < length modules.now) }
{
    let mut k = from;
    while k < modules.len() {
        let module = &modules[k];
        if !module.leaf && !holds(names, module.name.as_slice()) {
            return Some(k);
        }
        k += 1;
    }
    None
}

/// The one module that is no cell and isn't instantiated.
fn one_root(alloc: Global, library: &Library<'_>) -> Result<usize, ElabFault>
    ensures { IsTop library.now.modules.now None result }
{
    let modules = library.modules;
    let names = all_instantiated(alloc, modules)?;
    let Some(first) = root_from(modules, &names, 0) else {
        return Err(ElabFault::NoTop(None));
    };
    let Some(second) = root_from(modules, &names, first + 1) else {
        return Ok(first);
    };
    let name = printed(alloc, modules[first].name.as_slice())?;
    let other = printed(alloc, modules[second].name.as_slice())?;
    Err(ElabFault::ManyTops(name, other))
}

/// The number of the top: the module that the name means, or the one that isn't instantiated.
pub fn top(alloc: Global, library: &Library<'_>, name: Option<&[u8]>) -> Result<usize, ElabFault>
    ensures { IsTop library.now.modules.now (option_map (λ n. n.now) name.entry) result }
{
    match name {
        None => one_root(alloc, library),
        Some(name) => named_top(alloc, library, name),
    }
}
