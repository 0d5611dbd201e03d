//! Designs that are refused.
ghost use Rattle.std.specs.Prelude.{◌≡◌, ◌<◌, ◌++◌, All, OnOk, length};
ghost use Rattle.line_text.specs.Written.{spaced};
ghost use Rattle.bud_design.specs.Designs.{pin_name};
ghost use Rattle.budget_report.specs.Lines.{line};
ghost use Rattle.budget_report.specs.Subjects.{subject_of, design_of, HasDesign};
ghost use Rattle.budget_report.specs.DesignFaults.{elab_status, bind_status, graph_status, resolve_status, layer_status, bare_fields, named_fields, paired_fields, counted_fields, limit_fields, no_top_fields, elab_fields, bind_fields, graph_fields, resolve_fields, layer_fields, pair_line, pair_lines, graph_rest, IsPairOf, HasPins};

use crate::lines::{put_number, put_pin};
use crate::scenes::Scene;
use crate::statuses::Status;
use bud_base::Text;
use delay_bind::BindFault;
use flat_design::Flat;
use layer_theory::LayerFault;
use line_text::put_field;
use module_nets::ElabFault;
use std::alloc::AllocError;
use timing_graph::{GraphFault, PinPair};
use timing_objects::ResolveFault;

pub fn elab_status(fault: &ElabFault) -> Status
    ensures { result ≡ elab_status fault.now }
{
    match fault {
        ElabFault::TooDeep(_) | ElabFault::TooLarge(_) => Status::Limit,
        ElabFault::NoMemory => Status::Memory,
        _ => Status::Design,
    }
}

pub fn bind_status(fault: &BindFault) -> Status
    ensures { result ≡ bind_status fault.now }
{
    match fault {
        BindFault::NoMemory => Status::Memory,
        _ => Status::Design,
    }
}

pub fn graph_status(fault: &GraphFault) -> Status
    ensures { result ≡ graph_status fault.now }
{
    match fault {
        GraphFault::NoMemory => Status::Memory,
        GraphFault::Cycle(_) => Status::Design,
    }
}

pub fn resolve_status(fault: &ResolveFault) -> Status
    ensures { result ≡ resolve_status fault.now }
{
    match fault {
        ResolveFault::NoMemory => Status::Memory,
        _ => Status::Design,
    }
}

pub fn layer_status(fault: &LayerFault) -> Status
    ensures { result ≡ layer_status fault.now }
{
    match fault {
        LayerFault::TooManyStates(_) | LayerFault::TooManyItems(_) => Status::Limit,
        LayerFault::NoMemory => Status::Memory,
        _ => Status::Design,
    }
}

/// Adds the line of a netlist that has no flat design.
pub fn put_elab_fault(out: &mut Vec<u8>, fault: &ElabFault) -> Result<(), AllocError>
    ensures { OnOk result (out.new.items ≡ out.old.items ++ line (elab_fields fault.now)) }
{
    match fault {
        ElabFault::ModuleTwice(name) => put_named(out, b"module-twice", name.as_slice()),
        ElabFault::NoTop(name) => put_no_top(out, name),
        ElabFault::ManyTops(a, b) => put_paired(out, b"many-tops", a.as_slice(), b.as_slice()),
        ElabFault::TooDeep(count) => put_limit(out, b"depth", *count),
        ElabFault::InoutPort(name) => put_named(out, b"inout", name.as_slice()),
        ElabFault::NameTwice(name) => put_named(out, b"name-twice", name.as_slice()),
        ElabFault::TooLarge(count) => put_limit(out, b"pins", *count),
        ElabFault::UnknownModule(name) => put_named(out, b"unknown-module", name.as_slice()),
        ElabFault::Recursive(name) => put_named(out, b"recursive", name.as_slice()),
        ElabFault::UnknownPort(name) => put_named(out, b"unknown-port", name.as_slice()),
        ElabFault::Select(name) => put_named(out, b"select", name.as_slice()),
        ElabFault::Width(name) => put_named(out, b"width", name.as_slice()),
        ElabFault::TwoDrivers(name) => put_named(out, b"two-drivers", name.as_slice()),
        ElabFault::NoMemory => out.extend_from_slice(b"memory\n"),
    }
}

/// Adds the line of a netlist without a top, with the name where one was asked for.
fn put_no_top(out: &mut Vec<u8>, name: &Option<Text>) -> Result<(), AllocError>
    ensures { OnOk result (out.new.items ≡ out.old.items ++ line (no_top_fields name.now)) }
{
    match name {
        Some(name) => put_named(out, b"no-top", name.as_slice()),
        None => out.extend_from_slice(b"design no-top\n"),
    }
}

/// Adds the line of a delay file that doesn't fit the design.
pub fn put_bind_fault(out: &mut Vec<u8>, fault: &BindFault) -> Result<(), AllocError>
    ensures { OnOk result (out.new.items ≡ out.old.items ++ line (bind_fields fault.now)) }
{
    match fault {
        BindFault::UnknownInstance(name) => put_named(out, b"unknown-instance", name.as_slice()),
        BindFault::WrongCell(name) => put_named(out, b"wrong-cell", name.as_slice()),
        BindFault::NotALeaf(name) => put_named(out, b"not-a-leaf", name.as_slice()),
        BindFault::UnknownPin(name) => put_named(out, b"unknown-pin", name.as_slice()),
        BindFault::NotOneNet(from, to) => {
            put_paired(out, b"not-one-net", from.as_slice(), to.as_slice())
        }
        BindFault::MixedEdge(name) => put_named(out, b"mixed-edge", name.as_slice()),
        BindFault::Latch(name) => put_named(out, b"latch", name.as_slice()),
        BindFault::NegativeDelay(from, to) => {
            put_paired(out, b"negative-delay", from.as_slice(), to.as_slice())
        }
        BindFault::NegativeRest(name) => put_named(out, b"negative-rest", name.as_slice()),
        BindFault::NoMemory => out.extend_from_slice(b"memory\n"),
    }
}

/// Adds the lines of arcs that have a cycle: their count, and a line for each.
pub fn put_graph_fault(
    out: &mut Vec<u8>,
    scene: Scene<'_>,
    fault: &GraphFault,
) -> Result<(), AllocError>
    requires design { HasDesign (subject_of scene) }
    requires pins { HasPins (design_of (subject_of scene)) fault.now }
    ensures { OnOk result (out.new.items ≡ out.old.items ++ line (graph_fields fault.now) ++ graph_rest (design_of (subject_of scene.entry)) fault.now) }
{
    match scene {
        Scene::Pins(flat) | Scene::Design(_, flat, _) => put_cycle(out, flat, fault),
        Scene::Bare | Scene::Raw(_) => unreachable!(),
    }
}

fn put_cycle(out: &mut Vec<u8>, flat: &Flat, fault: &GraphFault) -> Result<(), AllocError>
    requires { HasPins flat.now fault.now }
    ensures { OnOk result (out.new.items ≡ out.old.items ++ line (graph_fields fault.now) ++ graph_rest flat.now fault.now) }
{
    match fault {
        GraphFault::Cycle(pairs) => {
            put_counted(out, b"cycle", pairs.len() as u64)?;
            put_pairs(out, flat, pairs.as_slice())
        }
        GraphFault::NoMemory => out.extend_from_slice(b"memory\n"),
    }
}

/// Adds a line for each arc of a cycle.
fn put_pairs(out: &mut Vec<u8>, flat: &Flat, pairs: &[PinPair]) -> Result<(), AllocError>
    requires { All (IsPairOf flat.now) pairs.now }
    ensures { OnOk result (out.new.items ≡ out.old.items ++ pair_lines flat.now pairs.now) }
{
    for pair in pairs {
        put_pair(out, flat, pair)?;
    }
    Ok(())
}

fn put_pair(out: &mut Vec<u8>, flat: &Flat, pair: &PinPair) -> Result<(), AllocError>
    requires { IsPairOf flat.now pair.now }
    ensures { OnOk result (out.new.items ≡ out.old.items ++ pair_line flat.now pair.now) }
{
    out.extend_from_slice(b"arc")?;
    put_pin(out, flat, pair.from)?;
    put_pin(out, flat, pair.to)?;
    out.push(b'\n')?;
    Ok(())
}

/// Adds the line of a timing command that is refused.
pub fn put_resolve_fault(out: &mut Vec<u8>, fault: &ResolveFault) -> Result<(), AllocError>
    ensures { OnOk result (out.new.items ≡ out.old.items ++ line (resolve_fields fault.now)) }
{
    match fault {
        ResolveFault::UnknownObject(name) => put_named(out, b"unknown-object", name.as_slice()),
        ResolveFault::UnknownClock(name) => put_named(out, b"unknown-clock", name.as_slice()),
        ResolveFault::NotASource(name) => put_named(out, b"not-a-source", name.as_slice()),
        ResolveFault::NotAStart(name) => put_named(out, b"not-a-start", name.as_slice()),
        ResolveFault::NotAnEnd(name) => put_named(out, b"not-an-end", name.as_slice()),
        ResolveFault::NotAPin(name) => put_named(out, b"not-a-pin", name.as_slice()),
        ResolveFault::ClockTwice(name) => put_named(out, b"clock-twice", name.as_slice()),
        ResolveFault::BadWaveform(name) => put_named(out, b"bad-waveform", name.as_slice()),
        ResolveFault::NoMemory => out.extend_from_slice(b"memory\n"),
    }
}

/// Adds the line of a policy that doesn't fit the design, or of a layering past a limit.
pub fn put_layer_fault(out: &mut Vec<u8>, fault: &LayerFault) -> Result<(), AllocError>
    ensures { OnOk result (out.new.items ≡ out.old.items ++ line (layer_fields fault.now)) }
{
    match fault {
        LayerFault::UnknownArc(from, to) => {
            put_paired(out, b"unknown-arc", from.as_slice(), to.as_slice())
        }
        LayerFault::UnknownInstance(name) => put_named(out, b"unknown-instance", name.as_slice()),
        LayerFault::NestedBlocks(a, b) => {
            put_paired(out, b"nested-blocks", a.as_slice(), b.as_slice())
        }
        LayerFault::UnknownClock(name) => put_named(out, b"unknown-clock", name.as_slice()),
        LayerFault::TooManyStates(count) => put_limit(out, b"states", *count),
        LayerFault::TooManyItems(count) => put_limit(out, b"items", *count),
        LayerFault::NoMemory => out.extend_from_slice(b"memory\n"),
    }
}

/// Adds the line of a design that is refused, with a word and a name.
fn put_named(out: &mut Vec<u8>, word: &[u8], name: &[u8]) -> Result<(), AllocError>
    ensures { OnOk result (out.new.items ≡ out.old.items ++ line (named_fields word.now name.now)) }
{
    out.extend_from_slice(b"design")?;
    put_field(out, word)?;
    put_field(out, name)?;
    out.push(b'\n')?;
    Ok(())
}

/// Adds the line of a design that is refused, with a word and two names.
fn put_paired(out: &mut Vec<u8>, word: &[u8], from: &[u8], to: &[u8]) -> Result<(), AllocError>
    ensures { OnOk result (out.new.items ≡ out.old.items ++ line (paired_fields word.now from.now to.now)) }
{
    out.extend_from_slice(b"design")?;
    put_field(out, word)?;
    put_field(out, from)?;
    put_field(out, to)?;
    out.push(b'\n')?;
    Ok(())
}

/// Adds the line of a design that is refused, with a word and a number.
fn put_counted(out: &mut Vec<u8>, word: &[u8], count: u64) -> Result<(), AllocError>
    ensures { OnOk result (out.new.items ≡ out.old.items ++ line (counted_fields word.now count)) }
{
    out.extend_from_slice(b"design")?;
    put_field(out, word)?;
    put_number(out, count)?;
    out.push(b'\n')?;
    Ok(())
}

/// Adds the line of a limit that is passed, with the first count past it.
fn put_limit(out: &mut Vec<u8>, word: &[u8], count: u64) -> Result<(), AllocError>
    ensures { OnOk result (out.new.items ≡ out.old.items ++ line (limit_fields word.now count)) }
{
    out.extend_from_slice(b"limit")?;
    put_field(out, word)?;
    put_number(out, count)?;
    out.push(b'\n')?;
    Ok(())
}
