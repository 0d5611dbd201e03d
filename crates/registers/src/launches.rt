ghost use Rattle.std.specs.Prelude.{◌≡◌, ◌<◌, length, IfOk};
ghost use Rattle.registers.specs.Launches.{marked_edge, marked_launch, AreLaunches, HasPinRoom};

use crate::register_marks::RegisterMarks;
use bud_base::PinId;
use bud_design::{LaunchEdge, LaunchEdges};
use bud_syntax::Edge;
use std::alloc::{AllocError, Global};

/// The one edge that a clock pin launches on: that which delays from it name, or else that of its checks.
pub fn edge_at(marks: &RegisterMarks, pin: u32) -> Option<Edge>
    requires named { pin < length marks.now.named.items }
    requires edges { pin < length marks.now.edges.items }
    ensures { result ≡ marked_edge marks.now pin }
{
    let pin = pin as usize;
    marks.named[pin].or_else(marks.edges[pin]).only()
}

/// The launch edge of a pin, if it is a clock pin with just one.
fn launch_at(marks: &RegisterMarks, pin: u32) -> Option<LaunchEdge>
    requires clocks { pin < length marks.now.clocks.items }
    requires named { pin < length marks.now.named.items }
    requires edges { pin < length marks.now.edges.items }
    ensures { result ≡ marked_launch marks.now pin }
{
    if !marks.clocks[pin as usize] {
        return None;
    }
    match edge_at(marks, pin) {
        Some(edge) => Some(LaunchEdge {
            pin: PinId(pin),
            edge,
        }),
        None => None,
    }
}

/// The launch edges of so many pins, in order.
pub fn launch_edges(
    alloc: Global,
    marks: &RegisterMarks,
    pins: u32,
) -> Result<LaunchEdges, AllocError>
    requires { HasPinRoom marks.now pins }
    ensures { IfOk result (λ edges. AreLaunches marks.now pins edges) }
{
    let mut edges = Vec::new(alloc);
    for pin in 0..pins {
        match launch_at(marks, pin) {
            Some(edge) => edges.push(edge)?,
            None => {}
        }
    }
    Ok(LaunchEdges::from_vec(edges))
}
