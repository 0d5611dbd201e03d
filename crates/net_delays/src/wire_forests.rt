ghost use Rattle.std.specs.Prelude.{◌≡◌, ◌^◌, ℕ, ◌<◌, ◌↔◌, length, All, IfOk, IsTrue};
ghost use Rattle.bud_design.specs.Designs.{driver_of};
ghost use Rattle.net_delays.specs.Alongs.{sum_of, IsSoundAlong, AreSums};
ghost use Rattle.net_delays.specs.Drives.{AreJoined};
ghost use Rattle.net_delays.specs.Forests.{mark_at, spot_at, IsSettled};
ghost use Rattle.net_delays.specs.Rests.{IsLeastNegative};
ghost use Rattle.net_delays.specs.WireForests.{drive, pin_count, IsPinAbove};

use crate::alongs::Along;
use crate::drivers::drivers;
use crate::ends::Ends;
use crate::forests::{Mark, grow, settled_spot};
use crate::rests::least_negative;
use crate::sums::add_up;
use bud_base::PinId;
use bud_design::Wire;
use std::alloc::{AllocError, Global};
use std::marker::Model;

/// The trees of the wires of a flat design: each pin below its driver, with the rings of wires at their tops.
#[derive(Debug, Drop)]
pub struct WireForest {
    drivers: Vec<Option<PinId>>,
    marks: Vec<Mark>,
    order: Vec<PinId>,
}

impl Model for WireForest {
    ghost use Rattle.net_delays.specs.WireForests.{Forest, IsSoundForest};

    ghost Value = { Forest };

    ghost view = { λ f. record { drivers = f.drivers.items; marks = f.marks.items; order = f.order.items } };

    ghost invariant = { λ f. IsSoundForest (record { drivers = f.drivers.items; marks = f.marks.items; order = f.order.items }) };
}

impl WireForest {
    /// The trees of these wires over so many pins, in time linear in both.
    pub fn new(alloc: Global, pins: u32, wires: &[Wire]) -> Result<WireForest, AllocError>
        requires from { All (λ wire. wire.from.0 < pins) wires.now }
        requires to { All (λ wire. wire.to.0 < pins) wires.now }
        ensures pins { IfOk result (λ forest. pin_count forest ≡ pins) }
        ensures drives { IfOk result (λ forest. (v : ℕ) → drive forest v ≡ driver_of wires.now v) }
    {
        let drivers = drivers(alloc, pins, wires)?;
        let (marks, order) = grow(alloc, &drivers)?;
        Ok(WireForest {
            drivers,
            marks,
            order,
        })
    }

    /// Of the pins above a pin the one that is so deep, or that stands for the ring of those.
    fn pin_above(&self, pin: PinId, depth: u32) -> PinId
        requires settled { IsSettled (mark_at self.now.marks pin.0) }
        requires higher { depth < (spot_at self.now.marks pin.0).depth }
        ensures { IsPinAbove self.now pin.0 depth result.0 }
    {
        let mut above = pin;
        let mut spot = settled_spot(&self.marks, pin);
        while spot.depth > depth {
            let far = settled_spot(&self.marks, spot.jump);
            if far.depth >= depth {
                above = spot.jump;
                spot = far;
            } else {
                above = spot.parent;
                spot = settled_spot(&self.marks, spot.parent);
            }
        }
        above
    }

    /// Whether one or more wires lead from the first pin to the last, which lies on no ring of wires.
    ///
    /// It takes time logarithmic in the number of these wires.
    pub fn joins(&self, from: PinId, to: PinId) -> bool
        requires from { from.0 < pin_count self.now }
        requires to { to.0 < pin_count self.now }
        ensures { IsTrue result ↔ AreJoined (drive self.now) from.0 to.0 }
    {
        let first = settled_spot(&self.marks, from);
        let last = settled_spot(&self.marks, to);
        first.depth < last.depth && self.pin_above(to, first.depth) == first.head
    }

    /// For each pin what delays add up to from the top of its tree, in ps: the greatest that a delay to it asks, or
    /// what they add up to at its driver.
    ///
    /// It takes time linear in pins and delays.
    pub fn sums(&self, alloc: Global, alongs: &[Along]) -> Result<Vec<i64>, AllocError>
        requires few { length alongs.now < 2 ^ 32 }
        requires sound { All (IsSoundAlong (drive self.now) (pin_count self.now)) alongs.now }
        ensures { IfOk result (λ sums. AreSums (drive self.now) (pin_count self.now) alongs.now sums.items) }
    {
        let pins = self.drivers.len();
        let ends = Ends::new(alloc, pins as u32, alongs)?;
        let mut sums = vec![in alloc; 0; pins]?;
        add_up(&self.drivers, &self.order, alongs, &ends, &mut sums);
        Ok(sums)
    }

    /// The least pin that a delay ends at of which less than 0 is left for the wire into the pin, where there is one.
    pub fn negative_rest(&self, sums: &[i64], alongs: &[Along]) -> Option<PinId>
        requires sound { All (IsSoundAlong (drive self.now) (pin_count self.now)) alongs.now }
        requires sums { AreSums (drive self.now) (pin_count self.now) alongs.now sums.now }
        ensures { IsLeastNegative (drive self.now) (sum_of sums.now) alongs.now (length alongs.now) result }
    {
        least_negative(&self.drivers, sums, alongs)
    }
}
