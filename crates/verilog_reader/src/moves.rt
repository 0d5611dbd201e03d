ghost use Rattle.std.specs.Prelude.{◌≡◌, ◌++◌, map, IfOk, OnOk};
ghost use Rattle.std.specs.List.{flat_map};
ghost use Rattle.verilog_reader.specs.Answers.{GivesRead, IsMemory};
ghost use Rattle.verilog_reader.specs.Modules as modules;

use crate::assembly::take_survey;
use crate::left::copied;
use crate::readings::Stop;
use crate::surveys::Survey;
use crate::trees::{Assembled, Cell, CellList, Item, Tree};
use bud_base::Text;
use bud_syntax::{Assign, Assigns, Instance, Instances, Module};
use std::alloc::Global;

/// The instances of one module.
fn made_instances(
    alloc: Global,
    module_name: &[u8],
    cells: Vec<Cell>,
) -> Result<Vec<Instance>, Stop>
    ensures made { IfOk result (λ found. found.items ≡ map (modules.instance_of module_name.now) cells.items) }
    ensures stop { IsMemory result }
{
    let mut instances = Vec::new(alloc);
    for cell in cells {
        let Ok(module) = copied(alloc, module_name) else {
            return Err(Stop::NoMemory);
        };
        let Cell { name, links } = cell;
        let instance = Instance {
            module,
            name,
            links,
        };
        if instances.push(instance).is_err() {
            return Err(Stop::NoMemory);
        }
    }
    Ok(instances)
}

/// Moves assignments to the others.
fn add_assigns(list: Assigns, assigns: &mut Vec<Assign>) -> Result<(), Stop>
    ensures ok { OnOk result (assigns.new.items ≡ assigns.old.items ++ list) }
    ensures stop { IsMemory result }
{
    let mut found = list.into_vec();
    match assigns.append(&mut found) {
        Ok(()) => Ok(()),
        Err(_) => Err(Stop::NoMemory),
    }
}

/// Moves instances to the others.
fn add_cells(
    alloc: Global,
    module_name: Text,
    cells: CellList,
    instances: &mut Vec<Instance>,
) -> Result<(), Stop>
    ensures ok { OnOk result (instances.new.items ≡ instances.old.items ++ map (modules.instance_of module_name) cells) }
    ensures stop { IsMemory result }
{
    let mut found = made_instances(alloc, module_name.as_slice(), cells.into_vec())?;
    match instances.append(&mut found) {
        Ok(()) => Ok(()),
        Err(_) => Err(Stop::NoMemory),
    }
}

/// Moves what an item holds to the assignments and the instances.
fn add_parts(
    alloc: Global,
    item: Item,
    assigns: &mut Vec<Assign>,
    instances: &mut Vec<Instance>,
) -> Result<(), Stop>
    ensures assigns { OnOk result (assigns.new.items ≡ assigns.old.items ++ modules.item_assigns item) }
    ensures instances { OnOk result (instances.new.items ≡ instances.old.items ++ modules.item_instances item) }
    ensures stop { IsMemory result }
{
    match item {
        Item::Assigns(list) => add_assigns(list, assigns),
        Item::Cells(module_name, cells) => add_cells(alloc, module_name, cells, instances),
        Item::Ports(_, names) => {
            drop(names);
            Ok(())
        }
        Item::Nets(_, _, names) => {
            drop(names);
            Ok(())
        }
        Item::Skipped => Ok(()),
    }
}

/// The assignments and the instances of a body.
fn moved(alloc: Global, items: Vec<Item>) -> Result<(Vec<Assign>, Vec<Instance>), Stop>
    ensures assigns { IfOk result (λ r. r.0.items ≡ flat_map modules.item_assigns items.items) }
    ensures instances { IfOk result (λ r. r.1.items ≡ flat_map modules.item_instances items.items) }
    ensures stop { IsMemory result }
{
    let mut assigns = Vec::new(alloc);
    let mut instances = Vec::new(alloc);
    for item in items {
        add_parts(alloc, item, &mut assigns, &mut instances)?;
    }
    Ok((assigns, instances))
}

/// The module that a tree makes, and its fault that begins first.
#[tactic(auto, unfolding(crate::specs::Modules::assembled))]
pub fn assembled(alloc: Global, tree: Tree) -> Result<Assembled, Stop>
    ensures { GivesRead (λ made. made) result (modules.assembled tree) }
{
    let Tree {
        leaf,
        name,
        header,
        items,
    } = tree;
    let survey = take_survey(alloc, header.as_slice(), items.as_slice())?;
    let (assigns, instances) = moved(alloc, items.into_vec())?;
    let Survey { ports, nets, fault } = survey;
    let module = Module {
        name,
        leaf,
        ports,
        nets,
        assigns: Assigns::from_vec(assigns),
        instances: Instances::from_vec(instances),
    };
    Ok(Assembled { module, fault })
}
