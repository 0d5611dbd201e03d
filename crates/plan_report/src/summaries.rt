//! The summary of a plan of a design.
ghost use Rattle.std.specs.Prelude.{◌≡◌, ◌<◌, ◌∷◌, ◌++◌, [], All, IfOk, OnOk, length};
ghost use Rattle.std.specs.Fmt.{signed_decimal};
ghost use Rattle.line_text.specs.Written.{spaced};
ghost use Rattle.bud_design.specs.TimingRules.{IsSoundGraph, IsSoundLayered};
ghost use Rattle.bud_plans.specs.Plans.{IsPlanOf, HasPlanNumbers};
ghost use Rattle.plan_report.specs.Summaries.{first_line, count_line, weight_line, head_text, place_line, block_line, block_lines, rest_line, pin_line, pin_lines, unclocked_lines, summary_text};

use crate::marks::{block_places, inside, outside};
use crate::weights::marked_weight;
use bud_base::{PinId, Text};
use bud_design::{Constraints, Layered, Policy, Timing};
use bud_plans::Plan;
use budget_report::{meets_text, no_paths_text};
use flat_design::Flat;
use itoa::Buffer;
use line_text::put_field;
use std::alloc::{AllocError, Global};
use timing_graph::Graph;

/// The text of a plan of a design that was layered under a policy: its least slack in ps, None where no path is constrained;
/// how many classes, nodes and items there are; what its budgets weigh in all, inside each block in policy order, and
/// outside of all blocks; the clock pins that no clock reaches; and how many pairs of pins no arc stands for.
#[tactic(auto, unfolding(crate::specs::Summaries::summary_text))]
pub fn summary(
    alloc: Global,
    layered: &Layered,
    flat: &Flat,
    graph: &Graph,
    all: &Constraints,
    timing: &Timing,
    policy: &Policy,
    slack: Option<i64>,
    plan: &Plan,
) -> Result<Text, AllocError>
    requires graph { IsSoundGraph flat.now graph.now }
    requires layered { IsSoundLayered (length flat.now.pins) (length graph.now.arcs) layered.now }
    requires unclocked { All (λ v. v.0 < length flat.now.pins) all.now.unclocked }
    requires plan { IsPlanOf layered.now.problem plan.now }
    requires numbers { HasPlanNumbers plan.now }
    ensures { IfOk result (λ text. text ≡ summary_text layered.now flat.now graph.now.arcs all.now timing.now policy.now.lines slack plan.now) }
{
    let mut out = Vec::new(alloc);
    let places = block_places(alloc, flat, graph, policy.lines.as_slice())?;
    put_head(&mut out, slack, layered, plan.weight)?;
    put_blocks(&mut out, layered, flat, graph, plan, places.as_slice())?;
    put_rest(&mut out, layered, flat, graph, plan, places.as_slice())?;
    put_unclocked(&mut out, flat, all.unclocked.as_slice())?;
    put_count(&mut out, b"left-out", u64::from(timing.left_out))?;
    Ok(Text::from_vec(out))
}

/// Adds the first lines of a summary, up to the weight of the budgets.
#[tactic(auto, unfolding(crate::specs::Summaries::head_text))]
pub fn put_head(
    out: &mut Vec<u8>,
    slack: Option<i64>,
    layered: &Layered,
    weight: i128,
) -> Result<(), AllocError>
    ensures { OnOk result (out.new.items ≡ out.old.items ++ head_text slack layered.now weight) }
{
    put_first(out, slack)?;
    put_count(out, b"classes", layered.classes.len() as u64)?;
    put_count(out, b"nodes", layered.nodes.len() as u64)?;
    put_count(out, b"items", layered.items.len() as u64)?;
    put_weight(out, b"weight", weight)
}

/// Adds the line of the least slack.
fn put_first(out: &mut Vec<u8>, slack: Option<i64>) -> Result<(), AllocError>
    ensures { OnOk result (out.new.items ≡ out.old.items ++ first_line slack) }
{
    let line = first_text(*out.allocator(), slack)?;
    out.extend_from_slice(line.as_slice())
}

fn first_text(alloc: Global, slack: Option<i64>) -> Result<Text, AllocError>
    ensures { IfOk result (λ text. text ≡ first_line slack) }
{
    match slack {
        Some(slack) => meets_text(alloc, slack),
        None => no_paths_text(alloc),
    }
}

/// Adds a line of a word and a number.
fn put_count(out: &mut Vec<u8>, word: &[u8], number: u64) -> Result<(), AllocError>
    ensures { OnOk result (out.new.items ≡ out.old.items ++ count_line word.now number) }
{
    out.extend_from_slice(word)?;
    let mut buffer = Buffer::new();
    put_field(out, buffer.format(number).as_bytes())?;
    out.push(b'\n')?;
    Ok(())
}

/// Adds a weight as a field behind a space, and a line feed.
fn put_end(out: &mut Vec<u8>, weight: i128) -> Result<(), AllocError>
    ensures { OnOk result (out.new.items ≡ out.old.items ++ (spaced (signed_decimal weight) ++ 10 ∷ [])) }
{
    let mut buffer = Buffer::new();
    put_field(out, buffer.format(weight).as_bytes())?;
    out.push(b'\n')?;
    Ok(())
}

/// Adds a line of a word and a weight.
fn put_weight(out: &mut Vec<u8>, word: &[u8], weight: i128) -> Result<(), AllocError>
    ensures { OnOk result (out.new.items ≡ out.old.items ++ weight_line word.now weight) }
{
    out.extend_from_slice(word)?;
    put_end(out, weight)
}

/// Adds a line for each block: what the budgets of the items inside it weigh.
fn put_blocks(
    out: &mut Vec<u8>,
    layered: &Layered,
    flat: &Flat,
    graph: &Graph,
    plan: &Plan,
    places: &[u32],
) -> Result<(), AllocError>
    requires graph { IsSoundGraph flat.now graph.now }
    requires layered { IsSoundLayered (length flat.now.pins) (length graph.now.arcs) layered.now }
    requires plan { IsPlanOf layered.now.problem plan.now }
    requires numbers { HasPlanNumbers plan.now }
    requires places { All (λ p. p < length flat.now.places) places.now }
    ensures { OnOk result (out.new.items ≡ out.old.items ++ block_lines layered.now flat.now graph.now.arcs plan.now.budgets places.now) }
{
    for place in places {
        put_block(out, layered, flat, graph, plan, *place)?;
    }
    Ok(())
}

fn put_block(
    out: &mut Vec<u8>,
    layered: &Layered,
    flat: &Flat,
    graph: &Graph,
    plan: &Plan,
    place: u32,
) -> Result<(), AllocError>
    requires graph { IsSoundGraph flat.now graph.now }
    requires layered { IsSoundLayered (length flat.now.pins) (length graph.now.arcs) layered.now }
    requires plan { IsPlanOf layered.now.problem plan.now }
    requires numbers { HasPlanNumbers plan.now }
    requires place { place < length flat.now.places }
    ensures { OnOk result (out.new.items ≡ out.old.items ++ block_line layered.now flat.now graph.now.arcs plan.now.budgets place) }
{
    let alloc = *out.allocator();
    let marks = inside(alloc, flat, graph, layered.items.as_slice(), place)?;
    let weight = marked_weight(&layered.problem, plan, marks.as_slice());
    put_place(out, flat, place, weight)
}

/// Adds the line of a block and a weight.
fn put_place(out: &mut Vec<u8>, flat: &Flat, place: u32, weight: i128) -> Result<(), AllocError>
    requires { place < length flat.now.places }
    ensures { OnOk result (out.new.items ≡ out.old.items ++ place_line flat.now place weight) }
{
    let mut name = Text::new(*out.allocator());
    flat.name_of_place(place, &mut name)?;
    out.extend_from_slice(b"block")?;
    put_field(out, name.as_slice())?;
    put_end(out, weight)
}

/// Adds the line of the items inside none of the places.
fn put_rest(
    out: &mut Vec<u8>,
    layered: &Layered,
    flat: &Flat,
    graph: &Graph,
    plan: &Plan,
    places: &[u32],
) -> Result<(), AllocError>
    requires graph { IsSoundGraph flat.now graph.now }
    requires layered { IsSoundLayered (length flat.now.pins) (length graph.now.arcs) layered.now }
    requires plan { IsPlanOf layered.now.problem plan.now }
    requires numbers { HasPlanNumbers plan.now }
    ensures { OnOk result (out.new.items ≡ out.old.items ++ rest_line layered.now flat.now graph.now.arcs plan.now.budgets places.now) }
{
    let alloc = *out.allocator();
    let marks = outside(alloc, flat, graph, layered.items.as_slice(), places)?;
    let weight = marked_weight(&layered.problem, plan, marks.as_slice());
    put_weight(out, b"rest", weight)
}

/// Adds the lines of the clock pins that no clock reaches.
fn put_unclocked(out: &mut Vec<u8>, flat: &Flat, pins: &[PinId]) -> Result<(), AllocError>
    requires { All (λ v. v.0 < length flat.now.pins) pins.now }
    ensures { OnOk result (out.new.items ≡ out.old.items ++ unclocked_lines flat.now pins.now) }
{
    put_count(out, b"unclocked", pins.len() as u64)?;
    put_pins(out, flat, pins)
}

fn put_pins(out: &mut Vec<u8>, flat: &Flat, pins: &[PinId]) -> Result<(), AllocError>
    requires { All (λ v. v.0 < length flat.now.pins) pins.now }
    ensures { OnOk result (out.new.items ≡ out.old.items ++ pin_lines flat.now pins.now) }
{
    for pin in pins {
        put_pin(out, flat, *pin)?;
    }
    Ok(())
}

fn put_pin(out: &mut Vec<u8>, flat: &Flat, pin: PinId) -> Result<(), AllocError>
    requires { pin.0 < length flat.now.pins }
    ensures { OnOk result (out.new.items ≡ out.old.items ++ pin_line flat.now pin) }
{
    let mut name = Text::new(*out.allocator());
    flat.name_of(pin, &mut name)?;
    out.extend_from_slice(b"pin")?;
    put_field(out, name.as_slice())?;
    out.push(b'\n')?;
    Ok(())
}
