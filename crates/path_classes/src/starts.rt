ghost use Rattle.std.specs.Prelude.{◌≡◌, ◌<◌, ◌∷◌, [], true, map, length, All, AllPairs, IfOk};
ghost use Rattle.bud_design.specs.Exceptions.{class_of};
ghost use Rattle.state_numbers.specs.Placed.{placed_before};
ghost use Rattle.path_classes.specs.Placing.{AreStarts, AreDifferent, IsStartPlace, start_of};

use bud_base::{NodeId, Start};
use bud_design::{Class, Constraints, Launch};
use class_steps::ClassTable;
use met_lists::first_classes;
use state_numbers::{Placed, find_placed};
use std::alloc::{AllocError, Global};

/// The node where a launch of this class begins, where it is one.
fn start_place(
    all: &Constraints,
    kinds: &ClassTable,
    ranks: &[Option<u32>],
    nodes: &[Placed],
    launch: &Launch,
    class: &Class,
) -> Option<usize>
    requires ranks { length ranks.now ≡ length kinds.now }
    requires rising { AllPairs (λ x y. placed_before x y ≡ true) nodes.now }
    requires kinds { AreDifferent kinds.now }
    requires first { class.now ≡ class_of all.now launch.now (launch.now.pin.0 ∷ []) }
    ensures { IsStartPlace all.now kinds.now ranks.now nodes.now launch.now result }
{
    let Some(kind) = kinds.find(class) else {
        return None;
    };
    match ranks[kind] {
        None => None,
        Some(rank) => find_placed(nodes, rank, launch.pin.0),
    }
}

/// The nodes where launches begin, each with its launch.
pub fn place_starts(
    alloc: Global,
    all: &Constraints,
    kinds: &ClassTable,
    ranks: &[Option<u32>],
    nodes: &[Placed],
) -> Result<Vec<Placed>, AllocError>
    requires ranks { length ranks.now ≡ length kinds.now }
    requires rising { AllPairs (λ x y. placed_before x y ≡ true) nodes.now }
    requires kinds { AreDifferent kinds.now }
    ensures { IfOk result (λ starts. AreStarts all.now kinds.now ranks.now nodes.now (length all.now.launches) starts.items) }
{
    let classes = first_classes(alloc, all)?;
    starts_in(alloc, all, kinds, ranks, nodes, classes.as_slice())
}

/// The nodes where launches of these classes begin, each with its launch.
fn starts_in(
    alloc: Global,
    all: &Constraints,
    kinds: &ClassTable,
    ranks: &[Option<u32>],
    nodes: &[Placed],
    classes: &[Class],
) -> Result<Vec<Placed>, AllocError>
    requires ranks { length ranks.now ≡ length kinds.now }
    requires rising { AllPairs (λ x y. placed_before x y ≡ true) nodes.now }
    requires kinds { AreDifferent kinds.now }
    requires classes { classes.now ≡ map (λ l. class_of all.now l (l.pin.0 ∷ [])) all.now.launches }
    ensures { IfOk result (λ starts. AreStarts all.now kinds.now ranks.now nodes.now (length all.now.launches) starts.items) }
{
    let launches = all.launches.as_slice();
    let mut starts = Vec::new(alloc);
    for place in 0..launches.len() {
        let begin = start_place(all, kinds, ranks, nodes, &launches[place], &classes[place]);
        let Some(node) = begin else {
            continue;
        };
        let Ok(number) = u32::try_from(node) else {
            return Err(AllocError);
        };
        let Ok(with) = u32::try_from(place) else {
            return Err(AllocError);
        };
        starts.push(Placed {
            class: 0,
            number,
            with,
        })?;
    }
    Ok(starts)
}

/// The problem's starts.
pub fn problem_starts(
    alloc: Global,
    launches: &[Launch],
    starts: &[Placed],
) -> Result<Vec<Start>, AllocError>
    requires { All (λ x. x.with < length launches.now) starts.now }
    ensures { IfOk result (λ xs. xs.items ≡ map (start_of launches.now) starts.now) }
{
    let mut list = Vec::new(alloc);
    for x in starts {
        list.push(Start {
            node: NodeId(x.number),
            offset: launches[x.with as usize].offset,
        })?;
    }
    Ok(list)
}
