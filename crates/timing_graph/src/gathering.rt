ghost use Rattle.std.specs.Prelude.{◌≡◌, ◌<◌, ◌++◌, [], ◌∷◌, if◌then◌else◌, map, length, All, IfOk, OnOk};
ghost use Rattle.std.specs.List.Sorted.{IsPermutation, IsNonDecreasingBy};
ghost use Rattle.bud_design.specs.Designs.{pin_at};
ghost use Rattle.timing_graph.specs.Gathering.{MarkClockPins, arcs_of_pairs, arc_of_wire};
ghost use Rattle.timing_graph.specs.Graphs.{wire_arcs};
ghost use Rattle.timing_graph.specs.GraphViews.{arc_of, key_of};

use crate::graphs::Arc;
use bud_base::PinId;
use bud_design::{Pair, Pin, Timing, Wire};
use std::alloc::{AllocError, Global};

/// A mark for each pin: whether it is a clock pin of a register.
fn clock_marks(alloc: Global, pins: usize, timing: &Timing) -> Result<Vec<bool>, AllocError>
    requires { All (λ x. x.pin.0 < pins) timing.now.edges }
    ensures { IfOk result (λ marks. MarkClockPins timing.now pins marks.items) }
{
    let mut marks = vec![in alloc; false; pins]?;
    for edge in timing.edges.as_slice() {
        marks[edge.pin.0 as usize] = true;
    }
    Ok(marks)
}

/// Adds the arc of a wire that doesn't end at a clock pin.
fn put_wire(arcs: &mut Vec<Arc>, wire: Wire, delay: i64, is_clocked: bool) -> Result<(), AllocError>
    ensures { OnOk result (map arc_of arcs.new.items ≡ map arc_of arcs.old.items ++ (if is_clocked then [] else arc_of_wire wire delay ∷ [])) }
{
    if !is_clocked {
        arcs.push(Arc {
            from: wire.from,
            to: wire.to,
            least: delay,
            home: wire.home,
        })?;
    }
    Ok(())
}

/// Adds the arcs of the wires that don't end at a clock pin.
fn put_wires(
    arcs: &mut Vec<Arc>,
    wires: &[Wire],
    timing: &Timing,
    marks: &[bool],
) -> Result<(), AllocError>
    requires one_each { length timing.now.wires ≡ length wires.now }
    requires marks { MarkClockPins timing.now (length marks.now) marks.now }
    requires within { All (λ w. w.to.0 < length marks.now) wires.now }
    ensures { OnOk result (map arc_of arcs.new.items ≡ map arc_of arcs.old.items ++ wire_arcs timing.now wires.now timing.now.wires) }
{
    let delays = timing.wires.as_slice();
    for (place, wire) in wires.iter().enumerate() {
        put_wire(arcs, *wire, delays[place], marks[wire.to.0 as usize])?;
    }
    Ok(())
}

/// The place that the pin belongs to.
fn home_of(pins: &[Pin], pin: PinId) -> u32
    requires { pin.0 < length pins.now }
    ensures { result ≡ (pin_at pins.now pin.0).place }
{
    pins[pin.0 as usize].place
}

/// Adds the arcs of the pairs.
fn put_pairs(arcs: &mut Vec<Arc>, pins: &[Pin], pairs: &[Pair]) -> Result<(), AllocError>
    requires { All (λ x. x.from.0 < length pins.now) pairs.now }
    ensures { OnOk result (map arc_of arcs.new.items ≡ map arc_of arcs.old.items ++ arcs_of_pairs pins.now pairs.now) }
{
    for pair in pairs {
        arcs.push(Arc {
            from: pair.from,
            to: pair.to,
            least: pair.value,
            home: home_of(pins, pair.from),
        })?;
    }
    Ok(())
}

/// The arcs of the wires that don't end at a clock pin, and those of the pairs.
pub fn gather(
    alloc: Global,
    pins: &[Pin],
    wires: &[Wire],
    timing: &Timing,
) -> Result<Vec<Arc>, AllocError>
    requires edges { All (λ x. x.pin.0 < length pins.now) timing.now.edges }
    requires one_each { length timing.now.wires ≡ length wires.now }
    requires wires { All (λ w. w.to.0 < length pins.now) wires.now }
    requires pairs { All (λ x. x.from.0 < length pins.now) timing.now.pairs }
    ensures { IfOk result (λ arcs. map arc_of arcs.items ≡ wire_arcs timing.now wires.now timing.now.wires ++ arcs_of_pairs pins.now timing.now.pairs) }
{
    let marks = clock_marks(alloc, pins.len(), timing)?;
    let mut arcs = Vec::new(alloc);
    put_wires(&mut arcs, wires, timing, &marks)?;
    put_pairs(&mut arcs, pins, timing.pairs.as_slice())?;
    Ok(arcs)
}

/// A number that rises with the pair of pins.
fn key(arc: Arc) -> u64
    ensures { result ≡ key_of arc }
{
    u64::from(arc.from.0) * 4294967296 + u64::from(arc.to.0)
}

/// Puts arcs in order of their pairs of pins.
pub fn in_order(mut arcs: Vec<Arc>) -> Result<Vec<Arc>, AllocError>
    ensures permutation { IfOk result (λ sorted. IsPermutation arcs.items sorted.items) }
    ensures sorted { IfOk result (λ sorted. IsNonDecreasingBy key_of sorted.items) }
{
    arcs.sort_by_key(|arc| key(*arc))?;
    Ok(arcs)
}
