ghost use Rattle.std.specs.Prelude.{◌≡◌, ◌<◌, None, List, is_some, map, length, IfSome, IfOk, OnOk, IfErr};
ghost use Rattle.std.specs.List.{AllZip};
ghost use Rattle.bud_design.specs.Clocks.{clock_called};
ghost use Rattle.bud_design.specs.Arcs.{Arc};
ghost use Rattle.layer_theory.specs.PolicyRefusals.{clock_fault, nested_fault, line_fault, policy_fault};
ghost use Rattle.policy_lines.specs.Lines.{line_number as number_of, IsBlockNumber};
ghost use Rattle.policy_lines.specs.Refusals.{IsFaultOf, IsRefusal, IsNestedFault, nests};

use crate::faults::{nested_blocks, unknown_arc, unknown_clock, unknown_instance};
use crate::named::line_number;
use crate::places::are_nested;
use bud_base::Text;
use bud_design::{Clock, PolicyLine};
use flat_design::Flat;
use layer_theory::LayerFault;
use std::alloc::Global;
use timing_graph::Graph;

fn is_clock(clocks: &[Clock], name: &[u8]) -> bool
    ensures { result ≡ is_some (clock_called clocks.now name.now) }
{
    for clock in clocks {
        if clock.name.as_slice() == name {
            return true;
        }
    }
    false
}

/// Refuses a name that is no clock's.
fn try_clock(alloc: Global, clocks: &[Clock], clock: &Option<Text>) -> Result<(), LayerFault>
    ensures { IsRefusal (clock_fault clocks.now clock.now) result }
{
    let Some(name) = clock else {
        return Ok(());
    };
    if is_clock(clocks, name.as_slice()) {
        return Ok(());
    }
    Err(unknown_clock(alloc, name))
}

/// Whether the line is a block that equals, holds or lies in a place.
fn is_nested(flat: &Flat, line: &PolicyLine, number: Option<u32>, place: u32) -> bool
    requires place { place < length flat.now.places }
    requires number { IsBlockNumber flat.now line.now number }
    ensures { result ≡ nests flat.now place line.now }
{
    let places = flat.places();
    match line {
        PolicyLine::Block(_) => match number {
            Some(block) => are_nested(places, block, place),
            None => false,
        },
        _ => false,
    }
}

/// The refusal of a block that is nested with an earlier one.
fn nested_with(alloc: Global, earlier: &PolicyLine, path: &Text) -> LayerFault
    ensures { IsNestedFault earlier.now path.now result }
{
    match earlier {
        PolicyLine::Block(other) => nested_blocks(alloc, other, path),
        _ => LayerFault::NoMemory,
    }
}

/// Refuses a block that is nested with one before it.
fn try_block(
    alloc: Global,
    flat: &Flat,
    before: &[PolicyLine],
    numbers: &[Option<u32>],
    path: &Text,
    number: Option<u32>,
) -> Result<(), LayerFault>
    requires numbers { AllZip (IsBlockNumber flat.now) before.now numbers.now }
    requires within { IfSome number (λ p. p < length flat.now.places) }
    ensures { IsRefusal (nested_fault flat.now before.now path.now number) result }
{
    let Some(place) = number else {
        return Err(unknown_instance(alloc, path));
    };
    for (index, line) in before.iter().enumerate() {
        if is_nested(flat, line, numbers[index], place) {
            return Err(nested_with(alloc, line, path));
        }
    }
    Ok(())
}

/// Refuses a line by the lines before it.
fn try_line(
    alloc: Global,
    flat: &Flat,
    clocks: &[Clock],
    before: &[PolicyLine],
    numbers: &[Option<u32>],
    line: &PolicyLine,
    number: Option<u32>,
) -> Result<(), LayerFault>
    requires numbers { AllZip (IsBlockNumber flat.now) before.now numbers.now }
    requires own { IsBlockNumber flat.now line.now number }
    ensures { (arcs : List Arc) → number ≡ number_of flat.now arcs line.now → IsRefusal (line_fault flat.now arcs clocks.now before.now line.now) result }
{
    match line {
        PolicyLine::Block(path) => try_block(alloc, flat, before, numbers, path, number),
        PolicyLine::Default { clock, .. } => try_clock(alloc, clocks, clock),
        PolicyLine::Inst { path, clock, .. } => {
            if number.is_none() {
                return Err(unknown_instance(alloc, path));
            }
            try_clock(alloc, clocks, clock)
        }
        PolicyLine::Arc {
            from,
            to,
            clock,
            ..
        } => {
            if number.is_none() {
                return Err(unknown_arc(alloc, from, to));
            }
            try_clock(alloc, clocks, clock)
        }
    }
}

/// The number that each line names, or the first refusal of the first line that has one.
pub fn line_numbers(
    alloc: Global,
    flat: &Flat,
    graph: &Graph,
    clocks: &[Clock],
    lines: &[PolicyLine],
) -> Result<Vec<Option<u32>>, LayerFault>
    ensures numbers { IfOk result (λ numbers. numbers.items ≡ map (number_of flat.now graph.now.arcs) lines.now) }
    ensures accepted { OnOk result (policy_fault flat.now graph.now.arcs clocks.now lines.now ≡ None) }
    ensures refused { IfErr result (IsFaultOf (policy_fault flat.now graph.now.arcs clocks.now lines.now)) }
{
    let mut numbers = Vec::new(alloc);
    for place in 0..lines.len() {
        let line = &lines[place];
        let number = line_number(flat, graph, line);
        try_line(
            alloc,
            flat,
            clocks,
            &lines[..place],
            numbers.as_slice(),
            line,
            number,
        )?;
        let Ok(()) = numbers.push(number) else {
            return Err(LayerFault::NoMemory);
        };
    }
    Ok(numbers)
}
