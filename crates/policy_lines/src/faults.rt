ghost use Rattle.std.specs.Prelude.{◌≡◌, Some, IfOk};
ghost use Rattle.layer_theory.specs.declared.refusals.LayerFault.TheVariants.{UnknownArc, UnknownInstance, NestedBlocks, UnknownClock};
ghost use Rattle.policy_lines.specs.Refusals.{IsFaultOf};

use bud_base::Text;
use layer_theory::LayerFault;
use std::alloc::{AllocError, Global};

fn copied(alloc: Global, text: &Text) -> Result<Text, AllocError>
    ensures { IfOk result (λ copy. copy ≡ text.now) }
{
    Text::from_slice(alloc, text.as_slice())
}

pub fn unknown_instance(alloc: Global, name: &Text) -> LayerFault
    ensures { IsFaultOf (Some (UnknownInstance name.now)) result }
{
    match copied(alloc, name) {
        Ok(name) => LayerFault::UnknownInstance(name),
        Err(_) => LayerFault::NoMemory,
    }
}

pub fn unknown_clock(alloc: Global, name: &Text) -> LayerFault
    ensures { IsFaultOf (Some (UnknownClock name.now)) result }
{
    match copied(alloc, name) {
        Ok(name) => LayerFault::UnknownClock(name),
        Err(_) => LayerFault::NoMemory,
    }
}

pub fn unknown_arc(alloc: Global, from: &Text, to: &Text) -> LayerFault
    ensures { IsFaultOf (Some (UnknownArc from.now to.now)) result }
{
    let Ok(first) = copied(alloc, from) else {
        return LayerFault::NoMemory;
    };
    match copied(alloc, to) {
        Ok(second) => LayerFault::UnknownArc(first, second),
        Err(_) => LayerFault::NoMemory,
    }
}

pub fn nested_blocks(alloc: Global, earlier: &Text, later: &Text) -> LayerFault
    ensures { IsFaultOf (Some (NestedBlocks earlier.now later.now)) result }
{
    let Ok(first) = copied(alloc, earlier) else {
        return LayerFault::NoMemory;
    };
    match copied(alloc, later) {
        Ok(second) => LayerFault::NestedBlocks(first, second),
        Err(_) => LayerFault::NoMemory,
    }
}
