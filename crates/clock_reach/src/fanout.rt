ghost use Rattle.std.specs.Prelude.{◌≡◌, ◌≤◌, ◌<◌, None, length, slice_index_or, All, IfOk};
ghost use Rattle.clock_reach.specs.Leaving.{AreFanout, LeavesBelow};

use bud_base::PinId;
use bud_design::Wire;
use std::alloc::{AllocError, Global};
use std::marker::Model;

/// The wires that leave each pin, by rising number: the first of a pin, and the next after a wire.
#[derive(Debug, Drop)]
pub struct Fanout {
    first: Vec<Option<u32>>,
    next: Vec<Option<u32>>,
}

impl Model for Fanout {
    ghost use Rattle.clock_reach.specs.FanoutLists.{FanoutLists};

    ghost Value = { FanoutLists };

    ghost view = { λ fanout. record { first = fanout.first.items; next = fanout.next.items } };
}

impl Fanout {
    /// The fanout of a design's pins, in time linear in the pins and wires.
    pub fn of(alloc: Global, pins: usize, wires: &[Wire]) -> Result<Fanout, AllocError>
        requires small { length wires.now < 2147483648 }
        requires pins { All (LeavesBelow pins) wires.now }
        ensures fanout { IfOk result (AreFanout wires.now) }
        ensures pins { IfOk result (λ fanout. length fanout.first ≡ pins) }
    {
        let first = vec![in alloc; None; pins]?;
        let next = vec![in alloc; None; wires.len()]?;
        let mut fanout = Fanout { first, next };
        fanout.fill(wires);
        Ok(fanout)
    }

    fn fill(&mut self, wires: &[Wire])
        requires room { length wires.now ≤ length self.old.next }
        requires small { length wires.now < 2147483648 }
        requires pins { All (LeavesBelow (length self.old.first)) wires.now }
        ensures fanout { AreFanout wires.now self.new }
        ensures pins { length self.new.first ≡ length self.old.first }
        ensures wires { length self.new.next ≡ length self.old.next }
    {
        for head in self.first.iter_mut() {
            *head = None;
        }
        let mut low = wires.len();
        while low > 0 {
            low -= 1;
            let pin = wires[low].from.0 as usize;
            self.next[low] = self.first[pin];
            self.first[pin] = Some(low as u32);
        }
    }

    /// The first wire that leaves the pin.
    pub fn first(&self, pin: PinId) -> Option<u32>
        requires { pin.0 < length self.now.first }
        ensures { result ≡ slice_index_or self.now.first pin.0 None }
    {
        self.first[pin.0 as usize]
    }

    /// The next wire after this one that leaves the same pin.
    pub fn next(&self, wire: u32) -> Option<u32>
        requires { wire < length self.now.next }
        ensures { result ≡ slice_index_or self.now.next wire None }
    {
        self.next[wire as usize]
    }
}
