ghost use Rattle.std.specs.Prelude.{◌≡◌, ◌++◌, ◌<◌, map, length, All, OnOk, IfOk};
ghost use Rattle.clock_reach.specs.Leaving.{AreFanout};
ghost use Rattle.clock_reach.specs.Walks.{mark_at, IsWireBelow, HasSourcesBelow, IsEntered, Spreads, AreMarks, front_of, fronts_from};

use crate::fanout::Fanout;
use bud_base::PinId;
use bud_design::{Clock, Wire};
use std::alloc::{AllocError, Global};

/// A source of a clock, or a pin that wires from one have come to.
#[derive(Clone, Copy, Debug)]
struct Front {
    pin: PinId,
    clock: u32,
}

/// The clock at each pin so far, and the pins to go on from.
#[derive(Debug, Drop)]
struct Walk {
    marks: Vec<Option<u32>>,
    queue: Vec<Front>,
}

/// Marks each pin to which one or more wires lead from a source of a clock, by such a clock.
///
/// It takes time linear in the pins, the wires and the sources.
pub fn mark_pins(
    alloc: Global,
    wires: &[Wire],
    clocks: &[Clock],
    pins: usize,
) -> Result<Vec<Option<u32>>, AllocError>
    requires few_wires { length wires.now < 2147483648 }
    requires few_clocks { length clocks.now < 2147483648 }
    requires wires { All (IsWireBelow pins) wires.now }
    requires sources { All (HasSourcesBelow pins) clocks.now }
    ensures { IfOk result (λ marks. AreMarks wires.now clocks.now pins marks.items) }
{
    let fanout = Fanout::of(alloc, pins, wires)?;
    let marks = vec![in alloc; None; pins]?;
    let queue = sources_of(alloc, clocks)?;
    let mut walk = Walk { marks, queue };
    let mut done = 0;
    while done < walk.queue.len() {
        let front = walk.queue[done];
        walk.spread(wires, &fanout, front)?;
        done += 1;
    }
    let Walk { marks, queue: _ } = walk;
    Ok(marks)
}

impl Walk {
    /// Marks the pins that the wires from a pin lead to, where no clock marks them yet, and puts them in the queue.
    fn spread(&mut self, wires: &[Wire], fanout: &Fanout, front: Front) -> Result<(), AllocError>
        requires wires { All (IsWireBelow (length self.old.marks.items)) wires.now }
        requires fanout { AreFanout wires.now fanout.now }
        requires pin { front.pin.0 < length fanout.now.first }
        ensures { OnOk result (Spreads wires.now (length wires.now) front self.old.marks.items self.old.queue.items self.new.marks.items self.new.queue.items) }
    {
        let mut next = fanout.first(front.pin);
        while let Some(wire) = next {
            let pin = wires[wire as usize].to;
            self.enter(Front {
                pin,
                clock: front.clock,
            })?;
            next = fanout.next(wire);
        }
        Ok(())
    }

    /// Marks the pin, where no clock marks it yet, and puts it in the queue.
    fn enter(&mut self, front: Front) -> Result<(), AllocError>
        requires { front.pin.0 < length self.old.marks.items }
        ensures { OnOk result (IsEntered (mark_at self.old.marks.items front.pin.0) front self.old.marks.items self.old.queue.items self.new.marks.items self.new.queue.items) }
    {
        if self.marks[front.pin.0 as usize].is_none() {
            self.marks[front.pin.0 as usize] = Some(front.clock);
            self.queue.push(front)?;
        }
        Ok(())
    }
}

/// The sources of all clocks, in order.
fn sources_of(alloc: Global, clocks: &[Clock]) -> Result<Vec<Front>, AllocError>
    requires { length clocks.now < 2147483648 }
    ensures { IfOk result (λ queue. queue.items ≡ fronts_from 0 clocks.now) }
{
    let mut queue = Vec::new(alloc);
    for (number, clock) in clocks.iter().enumerate() {
        add_sources(clock.sources.as_slice(), number as u32, &mut queue)?;
    }
    Ok(queue)
}

fn add_sources(sources: &[PinId], clock: u32, queue: &mut Vec<Front>) -> Result<(), AllocError>
    ensures { OnOk result (queue.new.items ≡ queue.old.items ++ map (front_of clock) sources.now) }
{
    for pin in sources {
        queue.push(Front { pin: *pin, clock })?;
    }
    Ok(())
}
