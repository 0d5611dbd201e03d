//! Which items lie inside a block, and which inside none.
ghost use Rattle.std.specs.Prelude.{◌≡◌, ◌<◌, length, All, IfOk, IfSome};
ghost use Rattle.std.specs.List.{list_any};
ghost use Rattle.std.specs.Option.{option_map};
ghost use Rattle.bud_design.specs.Arcs.{arc_at};
ghost use Rattle.bud_design.specs.Designs.{is_inside as lies_inside};
ghost use Rattle.bud_design.specs.Policies.{block_of};
ghost use Rattle.bud_design.specs.TimingRules.{IsSoundGraph};
ghost use Rattle.plan_report.specs.Weights.{inside, outside};
ghost use Rattle.plan_report.specs.Summaries.{block_places};

use bud_design::{LayerItem, PolicyLine};
use flat_design::Flat;
use policy_lines::{is_inside, line_number};
use std::alloc::{AllocError, Global};
use timing_graph::Graph;

/// The places of the blocks of a policy, in its order.
pub fn block_places(
    alloc: Global,
    flat: &Flat,
    graph: &Graph,
    lines: &[PolicyLine],
) -> Result<Vec<u32>, AllocError>
    ensures places { IfOk result (λ places. places.items ≡ block_places flat.now lines.now) }
    ensures within { IfOk result (λ places. All (λ p. p < length flat.now.places) places.items) }
{
    let mut places = Vec::new(alloc);
    for line in lines {
        if let Some(place) = block_place(flat, graph, line) {
            places.push(place)?;
        }
    }
    Ok(places)
}

/// The place of a line's block.
fn block_place(flat: &Flat, graph: &Graph, line: &PolicyLine) -> Option<u32>
    ensures place { result ≡ option_map (λ b. b.place) (block_of flat.now line.now) }
    ensures within { IfSome result (λ p. p < length flat.now.places) }
{
    match line {
        PolicyLine::Block(_) => line_number(flat, graph, line),
        _ => None,
    }
}

/// Which items' arcs lie inside the place.
pub fn inside(
    alloc: Global,
    flat: &Flat,
    graph: &Graph,
    items: &[LayerItem],
    place: u32,
) -> Result<Vec<bool>, AllocError>
    requires graph { IsSoundGraph flat.now graph.now }
    requires items { All (λ x. x.arc.0 < length graph.now.arcs) items.now }
    ensures { IfOk result (λ marks. marks.items ≡ inside flat.now graph.now.arcs items.now place) }
{
    let mut marks = Vec::with_capacity(alloc, items.len())?;
    for item in items {
        marks.push(lies_in(flat, graph, *item, place))?;
    }
    Ok(marks)
}

/// Whether an item's arc lies inside the place.
fn lies_in(flat: &Flat, graph: &Graph, item: LayerItem, place: u32) -> bool
    requires graph { IsSoundGraph flat.now graph.now }
    requires item { item.arc.0 < length graph.now.arcs }
    ensures { result ≡ lies_inside flat.now.places place (arc_at graph.now.arcs item.arc.0).home }
{
    is_inside(flat.places(), place, graph.home(item.arc))
}

/// Which items' arcs lie inside none of the places.
pub fn outside(
    alloc: Global,
    flat: &Flat,
    graph: &Graph,
    items: &[LayerItem],
    places: &[u32],
) -> Result<Vec<bool>, AllocError>
    requires graph { IsSoundGraph flat.now graph.now }
    requires items { All (λ x. x.arc.0 < length graph.now.arcs) items.now }
    ensures { IfOk result (λ marks. marks.items ≡ outside flat.now graph.now.arcs items.now places.now) }
{
    let mut marks = Vec::with_capacity(alloc, items.len())?;
    for item in items {
        marks.push(!lies_in_some(flat, graph, *item, places))?;
    }
    Ok(marks)
}

/// Whether an item's arc lies inside one of the places.
fn lies_in_some(flat: &Flat, graph: &Graph, item: LayerItem, places: &[u32]) -> bool
    requires graph { IsSoundGraph flat.now graph.now }
    requires item { item.arc.0 < length graph.now.arcs }
    ensures { result ≡ list_any (λ p. lies_inside flat.now.places p (arc_at graph.now.arcs item.arc.0).home) places.now }
{
    for place in places {
        if lies_in(flat, graph, item, *place) {
            return true;
        }
    }
    false
}
