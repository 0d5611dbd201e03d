ghost use Rattle.std.specs.Prelude.{◌≡◌, ◌+◌, ◌-◌, ◌<◌, ◌++◌, ◌∷◌, [], ◌⊎◌, true, false, length, set, take, IfOk, OnOk, Some, None};
ghost use Rattle.bud_design.specs.Names.{printed};
ghost use Rattle.module_nets.specs.Entering.{entered_count};
ghost use Rattle.module_nets.specs.Nets.{module_called};
ghost use Rattle.module_nets.specs.Refusals.{Answers, IsMemory};
ghost use Rattle.module_nets.specs.Tops.{module_at};
ghost use Rattle.elaborations.specs.Elaborations.{entering_fault, with_place};
ghost use Rattle.hierarchy.specs.Surveys.{is_known};
ghost use Rattle.net_drivers.specs.Drivers as drivers;
ghost use Rattle.hierarchy.specs.Faults.{two_drivers};
ghost use Rattle.net_drivers.specs.Phases.{IsClean};
ghost use Rattle.hierarchy.specs.Walking.{entry_at, built_of, IsTrail, IsSurvey, IsWalk, HasEntered, SameTrail, GoesOn, IsSurveyed, IsPlacing, IsBeginning, IsStep, step, steps};

use crate::placing::{put_pins, put_place};
use crate::wirings::local_wires;
use bud_base::Text;
use bud_design::{Pin, Place};
use bud_syntax::{Instance, Module};
use design_wires::LocalWires;
use module_nets::{ElabFault, Entered, Library, NetTable, enter, printed};
use std::alloc::Global;

/// The instances from below the top down to the module that is entered, by their printed names, and the numbers of the
/// modules from the top on.
#[derive(Drop)]
pub struct Trail {
    pub path: Vec<Text>,
    pub line: Vec<usize>,
}

/// The wires of each module that was entered.
#[derive(Drop)]
pub struct Survey {
    pub known: Vec<bool>,
    pub wires: Vec<LocalWires>,
}

/// The places and pins so far, the number of each place's module, and the count of net bits and pins.
#[derive(Drop)]
pub struct Walk {
    pub places: Vec<Place>,
    pub pins: Vec<Pin>,
    pub kinds: Vec<u32>,
    pub count: usize,
    pub trail: Trail,
    pub survey: Survey,
}

/// A plain instance whose own instances are still to be placed.
#[derive(Clone, Copy)]
pub struct Child {
    pub kind: usize,
    pub place: u32,
}

/// The module of a number.
fn module_at<'m>(modules: &'m [Module], kind: usize) -> &'m Module
    requires { kind < length modules.now }
    ensures { result.now ≡ module_at modules.now kind }
{
    &modules[kind]
}

/// The number of the next place.
fn next_place(places: &[Place]) -> Result<u32, ElabFault>
    ensures next { IfOk result (λ number. number ≡ length places.now) }
    ensures memory { IsMemory result }
{
    match u32::try_from(places.len()) {
        Ok(number) => Ok(number),
        Err(_) => Err(ElabFault::NoMemory),
    }
}

/// Notes the wires of the module of a number.
fn note_wires(survey: &mut Survey, kind: usize, wires: LocalWires)
    requires known { kind < length survey.old.known.items }
    requires wires { kind < length survey.old.wires.items }
    ensures known { survey.new.known.items ≡ set survey.old.known.items kind true }
    ensures wires { survey.new.wires.items ≡ set survey.old.wires.items kind wires }
{
    survey.known[kind] = true;
    survey.wires[kind] = wires;
}

/// Surveys a module whose body isn't refused, unless it is known.
fn survey_module(
    alloc: Global,
    library: &Library<'_>,
    trail: &Trail,
    survey: &mut Survey,
    kind: usize,
    nets: &NetTable<'_>,
) -> Result<(), ElabFault>
    requires kind { kind < length library.now.modules.now }
    requires plain { (module_at library.now.modules.now kind).leaf ≡ false }
    requires nets { nets.now.module.now ≡ module_at library.now.modules.now kind }
    requires clean { IsClean library.now.modules.now nets.now.module.now }
    requires survey { IsSurvey library.now.modules.now survey.old }
    ensures answer { Answers (two_drivers library.now.modules.now (module_at library.now.modules.now kind) trail.now.path.items) result }
    ensures surveyed { OnOk result (IsSurveyed library.now.modules.now kind survey.old survey.new) }
{
    if survey.known[kind] {
        return Ok(());
    }
    match local_wires(alloc, library, nets, trail.path.as_slice(), kind) {
        Ok(wires) => {
            note_wires(survey, kind, wires);
            Ok(())
        }
        Err(fault) => Err(fault),
    }
}

/// Enters a module, unless it is refused, and gives the count with what it adds.
pub fn enter_module(
    alloc: Global,
    library: &Library<'_>,
    trail: &Trail,
    survey: &mut Survey,
    kind: usize,
    count: usize,
) -> Result<usize, ElabFault>
    requires kind { kind < length library.now.modules.now }
    requires plain { (module_at library.now.modules.now kind).leaf ≡ false }
    requires trail { IsTrail library.now.modules.now trail.now }
    requires survey { IsSurvey library.now.modules.now survey.old }
    ensures answer { Answers (entering_fault library.now.modules.now (entry_at library.now.modules.now kind trail.now) (count + entered_count library.now.modules.now (module_at library.now.modules.now kind))) result }
    ensures entered { IfOk result (HasEntered library.now.modules.now kind count survey.old survey.new) }
{
    let Entered { nets, count } = enter(
        alloc,
        library,
        kind,
        trail.path.as_slice(),
        trail.line.as_slice(),
        count,
    )?;
    // The count is over its limit before.
    if 8_388_608 < nets.bits {
        return Err(ElabFault::NoMemory);
    }
    survey_module(alloc, library, trail, survey, kind, &nets)?;
    Ok(count)
}

/// Adds a place of a module of the netlist, with its pins.
pub fn put_module(
    alloc: Global,
    library: &Library<'_>,
    walk: &mut Walk,
    kind: u32,
    name: Text,
    parent: Option<u32>,
) -> Result<u32, ElabFault>
    requires walk { IsWalk library.now.modules.now walk.old }
    requires kind { kind < length library.now.modules.now }
    requires called { module_called library.now.modules.now (module_at library.now.modules.now kind).name ≡ Some (module_at library.now.modules.now kind) }
    requires known { ((module_at library.now.modules.now kind).leaf ≡ true) ⊎ (is_known walk.old.survey.known.items kind ≡ true) }
    ensures number { IfOk result (λ place. place ≡ length walk.old.places.items) }
    ensures built { OnOk result (built_of walk.new ≡ with_place name parent (module_at library.now.modules.now kind) (built_of walk.old)) }
    ensures trail { OnOk result (SameTrail walk.old.trail walk.new.trail) }
    ensures walk { OnOk result (IsWalk library.now.modules.now walk.new) }
    ensures memory { IsMemory result }
{
    let module = module_at(library.modules, kind as usize);
    let place = next_place(walk.places.as_slice())?;
    put_place(alloc, &mut walk.places, name, module, parent)?;
    put_pins(alloc, &mut walk.pins, place, module)?;
    match walk.kinds.push(kind) {
        Ok(()) => Ok(place),
        Err(_) => Err(ElabFault::NoMemory),
    }
}

/// Puts an instance at the end of the trail.
fn go_on(trail: &mut Trail, name: Text, kind: usize) -> Result<(), ElabFault>
    ensures went { OnOk result (GoesOn name kind trail.old trail.new) }
    ensures memory { IsMemory result }
{
    if trail.path.push(name).is_err() {
        return Err(ElabFault::NoMemory);
    }
    if trail.line.push(kind).is_err() {
        return Err(ElabFault::NoMemory);
    }
    Ok(())
}

/// Takes the last instance off the trail.
fn go_back(trail: &mut Trail)
    requires path { 0 < length trail.old.path.items }
    requires line { 0 < length trail.old.line.items }
    ensures path { trail.new.path.items ≡ take (length trail.old.path.items - 1) trail.old.path.items }
    ensures line { trail.new.line.items ≡ take (length trail.old.line.items - 1) trail.old.line.items }
{
    let _ = trail.path.pop();
    let _ = trail.line.pop();
}

/// Places an instance of a cell.
fn put_cell(
    alloc: Global,
    library: &Library<'_>,
    walk: &mut Walk,
    kind: usize,
    instance: &Instance,
    here: u32,
    levels: u32,
) -> Result<(), ElabFault>
    requires few { length library.now.modules.now < 2147483648 }
    requires walk { IsWalk library.now.modules.now walk.old }
    requires kind { kind < length library.now.modules.now }
    requires called { module_called library.now.modules.now instance.now.«module» ≡ Some (module_at library.now.modules.now kind) }
    requires cell { (module_at library.now.modules.now kind).leaf ≡ true }
    ensures { IsPlacing library.now.modules.now (step library.now.modules.now levels walk.old.trail here instance.now (built_of walk.old)) walk.old walk.new result }
{
    let name = printed(alloc, instance.name.as_slice())?;
    put_module(alloc, library, walk, kind as u32, name, Some(here))?;
    Ok(())
}

/// Enters and places a plain instance, unless it is too deep or refused.
fn begin(
    alloc: Global,
    library: &Library<'_>,
    walk: &mut Walk,
    kind: usize,
    instance: &Instance,
    here: u32,
    levels: u32,
) -> Result<Child, ElabFault>
    requires few { length library.now.modules.now < 2147483648 }
    requires walk { IsWalk library.now.modules.now walk.old }
    requires kind { kind < length library.now.modules.now }
    requires called { module_called library.now.modules.now instance.now.«module» ≡ Some (module_at library.now.modules.now kind) }
    requires plain { (module_at library.now.modules.now kind).leaf ≡ false }
    ensures { IsBeginning library.now.modules.now levels (step library.now.modules.now levels walk.old.trail here instance.now (built_of walk.old)) walk.old walk.new result }
{
    if levels == 0 {
        return Err(ElabFault::TooDeep(257));
    }
    let name = printed(alloc, instance.name.as_slice())?;
    go_on(&mut walk.trail, name, kind)?;
    let count = match enter_module(
        alloc,
        library,
        &walk.trail,
        &mut walk.survey,
        kind,
        walk.count,
    ) {
        Ok(count) => count,
        Err(fault) => return Err(fault),
    };
    walk.count = count;
    let name = printed(alloc, instance.name.as_slice())?;
    let place = put_module(alloc, library, walk, kind as u32, name, Some(here))?;
    Ok(Child { kind, place })
}

/// Places an instance. A plain one is entered, and those in it are still to be placed. Its module may well be the one of the number
/// `near`.
fn put_instance(
    alloc: Global,
    library: &Library<'_>,
    walk: &mut Walk,
    instance: &Instance,
    here: u32,
    levels: u32,
    near: usize,
) -> Result<Option<Child>, ElabFault>
    requires few { length library.now.modules.now < 2147483648 }
    requires walk { IsWalk library.now.modules.now walk.old }
    ensures { IsStep library.now.modules.now levels (step library.now.modules.now levels walk.old.trail here instance.now (built_of walk.old)) walk.old walk.new result }
{
    let Some(kind) = library.find(instance.module.as_slice(), near) else {
        return Ok(None);
    };
    if module_at(library.modules, kind).leaf {
        match put_cell(alloc, library, walk, kind, instance, here, levels) {
            Ok(()) => Ok(None),
            Err(fault) => Err(fault),
        }
    } else {
        match begin(alloc, library, walk, kind, instance, here, levels) {
            Ok(child) => Ok(Some(child)),
            Err(fault) => Err(fault),
        }
    }
}

/// Places an instance, whose module may well be the one of the number `near`, and what is inside it.
#[cycle(walk)]
fn put_whole(
    alloc: Global,
    library: &Library<'_>,
    walk: &mut Walk,
    instance: &Instance,
    here: u32,
    levels: u32,
    near: usize,
) -> Result<(), ElabFault>
    requires few { length library.now.modules.now < 2147483648 }
    requires walk { IsWalk library.now.modules.now walk.old }
    ensures { IsPlacing library.now.modules.now (step library.now.modules.now levels walk.old.trail here instance.now (built_of walk.old)) walk.old walk.new result }
{
    let begun = put_instance(alloc, library, walk, instance, here, levels, near)?;
    let Some(child) = begun else {
        return Ok(());
    };
    match put_inside(alloc, library, walk, child.kind, child.place, levels - 1) {
        Ok(()) => {
            go_back(&mut walk.trail);
            Ok(())
        }
        Err(fault) => Err(fault),
    }
}

/// Places the instances of a module, and what is inside them, up to so many levels of plain instances.
#[cycle(walk)]
pub fn put_inside(
    alloc: Global,
    library: &Library<'_>,
    walk: &mut Walk,
    kind: usize,
    here: u32,
    levels: u32,
) -> Result<(), ElabFault>
    requires few { length library.now.modules.now < 2147483648 }
    requires walk { IsWalk library.now.modules.now walk.old }
    requires kind { kind < length library.now.modules.now }
    ensures { IsPlacing library.now.modules.now (steps library.now.modules.now levels kind walk.old.trail here (module_at library.now.modules.now kind).instances (built_of walk.old)) walk.old walk.new result }
{
    let module = module_at(library.modules, kind);
    for (k, instance) in module.instances.as_slice().iter().enumerate() {
        let near = library.guess(kind, k);
        put_whole(alloc, library, walk, instance, here, levels, near)?;
    }
    Ok(())
}
