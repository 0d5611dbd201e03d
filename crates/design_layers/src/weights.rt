ghost use Rattle.std.specs.Prelude.{◌≡◌, ◌<◌, map, length, All, IfOk};
ghost use Rattle.bud_design.specs.Arcs.{arc_at};
ghost use Rattle.bud_design.specs.Policies.{has_line_clock, version_of as version_by};
ghost use Rattle.bud_design.specs.TimingRules.{IsDelay};
ghost use Rattle.policy_lines.specs.Lines.{line_number};
ghost use Rattle.policy_lines.specs.Shares.{share_seen, IsSoundShare, IsSoundLine};
ghost use Rattle.design_layers.specs.Weights.{share_at, weighted, weighted_items, layered_with, HasClock, CanWeigh};

use bud_base::{Item, Listed, Problem};
use bud_design::{Class, Clock, LayerItem, Layered, Policy, PolicyLine};
use flat_design::Flat;
use policy_lines::{Share, last_share};
use std::alloc::{AllocError, Global};
use timing_graph::Graph;

fn has_clock(line: &PolicyLine) -> bool
    ensures { result ≡ has_line_clock line.now }
{
    match line {
        PolicyLine::Block(_) => false,
        PolicyLine::Default { clock, .. } => clock.is_some(),
        PolicyLine::Inst { clock, .. } => clock.is_some(),
        PolicyLine::Arc { clock, .. } => clock.is_some(),
    }
}

/// The version of a policy: 2 where it says so or a line of it has a clock, else 1.
fn version_of(policy: &Policy) -> u32
    ensures { result ≡ version_by policy.now }
{
    if policy.version == 2 {
        return 2;
    }
    for line in policy.lines.as_slice() {
        if has_clock(line) {
            return 2;
        }
    }
    1
}

/// The item with what lines give it.
fn weighted_item(item: &Item, share: Share) -> Item
    requires least { IsDelay item.now.least }
    requires share { IsSoundShare (share_seen share) }
    ensures { result ≡ weighted (share_seen share) item.now }
{
    Item {
        from: item.from,
        to: item.to,
        least: item.least,
        greatest: item.least + share.extra,
        weight: share.weight,
    }
}

/// What lines give an arc in a class.
fn item_share(
    flat: &Flat,
    graph: &Graph,
    clocks: &[Clock],
    lines: &[PolicyLine],
    numbers: &[Option<u32>],
    classes: &[Class],
    x: &LayerItem,
) -> Share
    requires arc { x.now.arc.0 < length graph.now.arcs }
    requires home { (arc_at graph.now.arcs x.now.arc.0).home < length flat.now.places }
    requires clock { HasClock clocks.now classes.now x.now }
    requires numbers { numbers.now ≡ map (line_number flat.now graph.now.arcs) lines.now }
    ensures share { share_seen result ≡ share_at flat.now graph.now.arcs clocks.now lines.now classes.now x.now }
    ensures sound { All IsSoundLine lines.now → IsSoundShare (share_seen result) }
{
    let class = &classes[x.class.0 as usize];
    let clock = &clocks[class.clock as usize];
    last_share(flat, graph, lines, numbers, x.arc, clock)
}

/// The items of a layering with what lines give them.
fn weighted_list(
    alloc: Global,
    flat: &Flat,
    graph: &Graph,
    clocks: &[Clock],
    lines: &[PolicyLine],
    numbers: &[Option<u32>],
    plain: &Layered,
) -> Result<Vec<Item>, AllocError>
    requires lines { All IsSoundLine lines.now }
    requires numbers { numbers.now ≡ map (line_number flat.now graph.now.arcs) lines.now }
    requires layered { CanWeigh flat.now graph.now.arcs clocks.now plain.now }
    ensures { IfOk result (λ items. items.items ≡ weighted_items (share_at flat.now graph.now.arcs clocks.now lines.now plain.now.classes) plain.now.items plain.now.problem.items) }
{
    let items = plain.problem.items.as_slice();
    let arcs = plain.items.as_slice();
    let classes = plain.classes.as_slice();
    let mut list = Vec::with_capacity(alloc, items.len())?;
    for place in 0..arcs.len() {
        let share = item_share(flat, graph, clocks, lines, numbers, classes, &arcs[place]);
        list.push(weighted_item(&items[place], share))?;
    }
    Ok(list)
}

/// The layering with the bounds and weights that a policy gives its items.
pub fn under_policy(
    alloc: Global,
    flat: &Flat,
    graph: &Graph,
    clocks: &[Clock],
    policy: &Policy,
    numbers: &[Option<u32>],
    plain: Layered,
) -> Result<Layered, AllocError>
    requires lines { All IsSoundLine policy.now.lines }
    requires numbers { numbers.now ≡ map (line_number flat.now graph.now.arcs) policy.now.lines }
    requires layered { CanWeigh flat.now graph.now.arcs clocks.now plain }
    ensures { IfOk result (λ layered. layered ≡ layered_with plain (weighted_items (share_at flat.now graph.now.arcs clocks.now policy.now.lines plain.classes) plain.items plain.problem.items) (version_by policy.now)) }
{
    let lines = policy.lines.as_slice();
    let list = weighted_list(alloc, flat, graph, clocks, lines, numbers, &plain)?;
    let version = version_of(policy);
    let Layered {
        problem,
        classes,
        nodes,
        items,
        ..
    } = plain;
    Ok(Layered {
        problem: Problem {
            nodes: problem.nodes,
            items: Listed::from_vec(list),
            starts: problem.starts,
            ends: problem.ends,
        },
        classes,
        nodes,
        items,
        version,
    })
}
