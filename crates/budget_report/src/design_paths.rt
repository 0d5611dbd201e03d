//! Violated paths of designs.
ghost use Rattle.std.specs.Prelude.{◌≡◌, ◌<◌, ◌∷◌, ◌++◌, All, IfOk, OnOk, decimal, length, map};
ghost use Rattle.std.specs.List.{flat_map};
ghost use Rattle.line_text.specs.Written.{spaced};
ghost use Rattle.bud_base.specs.Paths.{IsPath};
ghost use Rattle.bud_design.specs.Clocks.{clock_at};
ghost use Rattle.bud_design.specs.Designs.{pin_name};
ghost use Rattle.budget_report.specs.DesignPaths.{slack_line, edge_word, has_groups, met_field, class_line, is_among, class_lines, among_line, named_pin_line, named_arc_line, pin_of, class_of_node, item_classes, item_line, item_lines, start_line, end_line, layered_text, IsItemIn, IsOfDesign};

use crate::lines::put_number;
use bud_base::{End, Item, ItemId, NodeId, Start, Text};
use bud_design::{Class, Clock, Constraints, Exception, Layered, Met};
use bud_syntax::Edge;
use flat_design::Flat;
use itoa::Buffer;
use line_text::{put_field, put_whole};
use std::alloc::{AllocError, Global};

/// A path of a layered problem, by the numbers of its start, its items and its end.
#[derive(Clone, Copy, Debug)]
pub struct Route<'a> {
    pub start: u32,
    pub items: &'a [ItemId],
    pub end: u32,
}

/// Adds the lines of a violated path: its slack in ps, its classes, its start, its arcs and its end.
#[tactic(auto, unfolding(crate::specs::DesignPaths::layered_text))]
pub fn put_design_path(
    alloc: Global,
    out: &mut Vec<u8>,
    layered: &Layered,
    flat: &Flat,
    all: &Constraints,
    slack: i64,
    route: Route<'_>,
) -> Result<(), AllocError>
    requires layered { IsOfDesign layered.now flat.now }
    requires path { IsPath layered.now.problem (record { start = route.start; items = route.items.now; end = route.end }) }
    ensures { OnOk result (out.new.items ≡ out.old.items ++ layered_text layered.now flat.now all.now slack (record { start = route.entry.start; items = route.entry.items.now; end = route.entry.end })) }
{
    let start = layered.problem.starts.as_slice()[route.start as usize];
    let end = layered.problem.ends.as_slice()[route.end as usize];
    put_slack(out, slack)?;
    let numbers = path_classes(alloc, layered, start.node, route.items)?;
    put_classes(out, all, layered.classes.as_slice(), numbers.as_slice())?;
    put_start(alloc, out, flat, layered, &start)?;
    put_items(alloc, out, flat, layered, route.items)?;
    put_end(alloc, out, flat, layered, &end)
}

fn put_slack(out: &mut Vec<u8>, slack: i64) -> Result<(), AllocError>
    ensures { OnOk result (out.new.items ≡ out.old.items ++ slack_line slack) }
{
    out.extend_from_slice(b"violated")?;
    put_whole(out, slack)?;
    out.push(b'\n')?;
    Ok(())
}

/// The number of a node's class.
pub fn class_of_node(layered: &Layered, node: NodeId) -> u32
    requires { node.0 < length layered.now.nodes }
    ensures { result ≡ class_of_node layered.now node.0 }
{
    layered.nodes.as_slice()[node.0 as usize].class.0
}

/// The numbers of the classes of a path, pin by pin.
fn path_classes(
    alloc: Global,
    layered: &Layered,
    start: NodeId,
    items: &[ItemId],
) -> Result<Vec<u32>, AllocError>
    requires start { start.0 < length layered.now.nodes }
    requires items { All (IsItemIn layered.now) items.now }
    ensures { IfOk result (λ numbers. numbers.items ≡ class_of_node layered.now start.0 ∷ item_classes layered.now items.now) }
{
    let mut numbers = Vec::new(alloc);
    numbers.push(class_of_node(layered, start))?;
    for item in items {
        let to = layered.problem.items.as_slice()[item.0 as usize].to;
        numbers.push(class_of_node(layered, to))?;
    }
    Ok(numbers)
}

/// Adds the lines of the classes that have one of these numbers.
fn put_classes(
    out: &mut Vec<u8>,
    all: &Constraints,
    classes: &[Class],
    numbers: &[u32],
) -> Result<(), AllocError>
    ensures { OnOk result (out.new.items ≡ out.old.items ++ class_lines all.now numbers.now 0 classes.now) }
{
    for (number, class) in classes.iter().enumerate() {
        put_among(out, all, numbers, number, class)?;
    }
    Ok(())
}

/// Adds the line of a class, if it has one of these numbers.
fn put_among(
    out: &mut Vec<u8>,
    all: &Constraints,
    numbers: &[u32],
    number: usize,
    class: &Class,
) -> Result<(), AllocError>
    ensures { OnOk result (out.new.items ≡ out.old.items ++ among_line all.now numbers.now number class.now) }
{
    if is_among(numbers, number) {
        put_class(out, all, number, class)
    } else {
        Ok(())
    }
}

fn is_among(numbers: &[u32], number: usize) -> bool
    ensures { result ≡ is_among numbers.now number }
{
    for other in numbers {
        if *other as usize == number {
            return true;
        }
    }
    false
}

fn put_class(
    out: &mut Vec<u8>,
    all: &Constraints,
    number: usize,
    class: &Class,
) -> Result<(), AllocError>
    ensures { OnOk result (out.new.items ≡ out.old.items ++ class_line all.now number class.now) }
{
    out.extend_from_slice(b"class")?;
    put_number(out, number as u64)?;
    put_field(out, clock_name(all.clocks.as_slice(), class.clock))?;
    put_field(out, edge_bytes(class.edge))?;
    put_exceptions(out, all.exceptions.as_slice(), class.exceptions.as_slice())?;
    out.push(b'\n')?;
    Ok(())
}

/// The name of a clock.
fn clock_name(clocks: &[Clock], number: u32) -> &[u8]
    ensures { result.now ≡ (clock_at clocks.now number).name }
{
    match clocks.get(number as usize) {
        Some(clock) => clock.name.as_slice(),
        None => &[],
    }
}

fn edge_bytes(edge: Edge) -> &'static [u8]
    ensures { result.now ≡ edge_word edge }
{
    match edge {
        Edge::Rise => b"rise",
        Edge::Fall => b"fall",
    }
}

fn put_exceptions(
    out: &mut Vec<u8>,
    exceptions: &[Exception],
    mets: &[Met],
) -> Result<(), AllocError>
    ensures { OnOk result (out.new.items ≡ out.old.items ++ flat_map spaced (map (met_field exceptions.now) mets.now)) }
{
    for met in mets {
        put_met(out, exceptions, *met)?;
    }
    Ok(())
}

/// Adds an exception of a class, with how many of its groups are met where it has groups.
fn put_met(out: &mut Vec<u8>, exceptions: &[Exception], met: Met) -> Result<(), AllocError>
    ensures { OnOk result (out.new.items ≡ out.old.items ++ spaced (met_field exceptions.now met)) }
{
    put_number(out, u64::from(met.number))?;
    if has_groups(exceptions, met.number) {
        put_steps(out, met.steps)
    } else {
        Ok(())
    }
}

fn put_steps(out: &mut Vec<u8>, steps: u32) -> Result<(), AllocError>
    ensures { OnOk result (out.new.items ≡ out.old.items ++ (58 ∷ decimal steps)) }
{
    out.push(b':')?;
    let mut buffer = Buffer::new();
    out.extend_from_slice(buffer.format(steps).as_bytes())
}

/// Whether the exception of this number has groups.
fn has_groups(exceptions: &[Exception], number: u32) -> bool
    ensures { result ≡ has_groups exceptions.now number }
{
    for exception in exceptions {
        if exception.number == number {
            return !exception.groups.is_empty();
        }
    }
    false
}

/// The name of a node's pin.
pub fn node_name(
    alloc: Global,
    flat: &Flat,
    layered: &Layered,
    node: NodeId,
) -> Result<Text, AllocError>
    requires layered { IsOfDesign layered.now flat.now }
    requires node { node.0 < length layered.now.nodes }
    ensures { IfOk result (λ name. name ≡ pin_name flat.now 0 (pin_of layered.now node.0)) }
{
    let pin = layered.nodes.as_slice()[node.0 as usize].pin;
    let mut name = Text::new(alloc);
    flat.name_of(pin, &mut name)?;
    Ok(name)
}

/// Adds the line of a pin in a class, with its time in ps.
fn put_pin_line(
    out: &mut Vec<u8>,
    word: &[u8],
    name: &[u8],
    class: u32,
    time: i64,
) -> Result<(), AllocError>
    ensures { OnOk result (out.new.items ≡ out.old.items ++ named_pin_line word.now name.now class time) }
{
    out.extend_from_slice(word)?;
    put_field(out, name)?;
    put_number(out, u64::from(class))?;
    put_whole(out, time)?;
    out.push(b'\n')?;
    Ok(())
}

fn put_start(
    alloc: Global,
    out: &mut Vec<u8>,
    flat: &Flat,
    layered: &Layered,
    start: &Start,
) -> Result<(), AllocError>
    requires layered { IsOfDesign layered.now flat.now }
    requires node { start.now.node.0 < length layered.now.nodes }
    ensures { OnOk result (out.new.items ≡ out.old.items ++ start_line flat.now layered.now start.now) }
{
    let name = node_name(alloc, flat, layered, start.node)?;
    let class = class_of_node(layered, start.node);
    put_pin_line(out, b"start", name.as_slice(), class, start.offset)
}

/// Adds a line for each arc of a path.
fn put_items(
    alloc: Global,
    out: &mut Vec<u8>,
    flat: &Flat,
    layered: &Layered,
    items: &[ItemId],
) -> Result<(), AllocError>
    requires layered { IsOfDesign layered.now flat.now }
    requires items { All (IsItemIn layered.now) items.now }
    ensures { OnOk result (out.new.items ≡ out.old.items ++ item_lines flat.now layered.now items.now) }
{
    for item in items {
        put_item(
            alloc,
            out,
            flat,
            layered,
            &layered.problem.items.as_slice()[item.0 as usize],
        )?;
    }
    Ok(())
}

/// Adds an arc's line: its pins and its least delay.
fn put_item(
    alloc: Global,
    out: &mut Vec<u8>,
    flat: &Flat,
    layered: &Layered,
    item: &Item,
) -> Result<(), AllocError>
    requires layered { IsOfDesign layered.now flat.now }
    requires from { item.now.from.0 < length layered.now.nodes }
    requires to { item.now.to.0 < length layered.now.nodes }
    ensures { OnOk result (out.new.items ≡ out.old.items ++ item_line flat.now layered.now item.now) }
{
    let from = node_name(alloc, flat, layered, item.from)?;
    let to = node_name(alloc, flat, layered, item.to)?;
    put_arc_line(out, from.as_slice(), to.as_slice(), item.least)
}

/// Adds the line of an arc between pins of these names, with its least delay in ps.
fn put_arc_line(out: &mut Vec<u8>, from: &[u8], to: &[u8], least: i64) -> Result<(), AllocError>
    ensures { OnOk result (out.new.items ≡ out.old.items ++ named_arc_line from.now to.now least) }
{
    out.extend_from_slice(b"arc")?;
    put_field(out, from)?;
    put_field(out, to)?;
    put_whole(out, least)?;
    out.push(b'\n')?;
    Ok(())
}

fn put_end(
    alloc: Global,
    out: &mut Vec<u8>,
    flat: &Flat,
    layered: &Layered,
    end: &End,
) -> Result<(), AllocError>
    requires layered { IsOfDesign layered.now flat.now }
    requires node { end.now.node.0 < length layered.now.nodes }
    ensures { OnOk result (out.new.items ≡ out.old.items ++ end_line flat.now layered.now end.now) }
{
    let name = node_name(alloc, flat, layered, end.node)?;
    let class = class_of_node(layered, end.node);
    put_pin_line(out, b"end", name.as_slice(), class, end.require)
}
