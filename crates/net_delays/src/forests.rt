ghost use Rattle.std.specs.Prelude.{◌≡◌, ◌+◌, ◌^◌, ℕ, ◌<◌, length, IfOk, OnOk};
ghost use Rattle.net_delays.specs.Drives.{drive_of, AreWithin};
ghost use Rattle.net_delays.specs.Forests.{mark_at, spot_at, IsSettled, IsPlaced, ArePlaced, AreSettled, IsForest};
ghost use Rattle.net_delays.specs.Climbs.{pin_on, AreClosed, IsCrowned, IsClimbed, HasSettledDriver, IsSettling, IsGrown};

use crate::climbs::climb;
use bud_base::PinId;
use std::alloc::{AllocError, Global};

/// Where a pin stands in its tree of wires.
#[derive(Clone, Copy, Debug)]
pub struct Spot {
    /// The pin itself, or the pin that stands for its ring.
    pub head: PinId,
    /// The head of its driver.
    pub parent: PinId,
    /// The head of a pin above it, mostly a far one.
    pub jump: PinId,
    /// How many wires lead to it from the top of its tree.
    pub depth: u32,
}

/// How far the search for trees has come with a pin.
#[derive(Clone, Copy, Debug)]
pub enum Mark {
    New,
    /// On the way up, at this place.
    Open(u32),
    Settled(Spot),
}

/// The spot of a settled pin.
pub fn settled_spot(marks: &[Mark], pin: PinId) -> Spot
    requires { IsSettled (mark_at marks.now pin.0) }
    ensures { result ≡ spot_at marks.now pin.0 }
{
    match marks[pin.0 as usize] {
        Mark::Settled(spot) => spot,
        _ => unreachable!(),
    }
}

/// Settles the top of a tree: a pin without driver, or the pins of a ring, for which the first stands.
fn settle_top(marks: &mut [Mark], top: &[PinId])
    requires { (k : ℕ) → k < length top.now → pin_on top.now k < length marks.old }
    ensures { IsCrowned marks.old marks.new top.now (length top.now) }
{
    for pin in top {
        let head = top[0];
        marks[pin.0 as usize] = Mark::Settled(Spot {
            head,
            parent: head,
            jump: head,
            depth: 0,
        });
    }
}

/// The spot of a pin whose driver is settled.
fn spot_below(drivers: &[Option<PinId>], marks: &[Mark], pin: PinId) -> Spot
    requires driven { HasSettledDriver marks.now (drive_of drivers.now pin.0) }
    requires placed { ArePlaced (drive_of drivers.now) marks.now }
    requires new { IsSettled (mark_at marks.now pin.0) → ⊥ }
    requires shallow { (v : ℕ) → IsSettled (mark_at marks.now v) → (spot_at marks.now v).depth + 1 < 2 ^ 32 }
    ensures placed { IsPlaced (drive_of drivers.now) marks.now pin.0 result (drive_of drivers.now pin.0) }
    ensures low { 0 < result.depth }
{
    let Some(driver) = drivers[pin.0 as usize] else {
        unreachable!()
    };
    let over = settled_spot(marks, driver);
    let parent = settled_spot(marks, over.head);
    let near = settled_spot(marks, parent.jump);
    let far = settled_spot(marks, near.jump);
    let jump = if parent.depth - near.depth == near.depth - far.depth {
        near.jump
    } else {
        over.head
    };
    Spot {
        head: pin,
        parent: over.head,
        jump,
        depth: over.depth + 1,
    }
}

/// Settles the pins of a path, the top first, and lists those below it.
fn settle(
    drivers: &[Option<PinId>],
    marks: &mut [Mark],
    path: &[PinId],
    top: usize,
    order: &mut Vec<PinId>,
) -> Result<(), AllocError>
    requires few { length marks.old < 2 ^ 32 }
    requires sizes { length marks.old ≡ length drivers.now }
    requires top { IsSettling (drive_of drivers.now) marks.old marks.old path.now top order.old.items }
    ensures { OnOk result (IsSettling (drive_of drivers.now) marks.old marks.new path.now 0 order.new.items) }
{
    let mut place = top;
    while place > 0 {
        place -= 1;
        let pin = path[place];
        let below = spot_below(drivers, marks, pin);
        marks[pin.0 as usize] = Mark::Settled(below);
        order.push(pin)?;
    }
    Ok(())
}

/// Settles a pin with those above it.
fn grow_at(
    drivers: &[Option<PinId>],
    marks: &mut [Mark],
    path: &mut Vec<PinId>,
    order: &mut Vec<PinId>,
    pin: PinId,
) -> Result<(), AllocError>
    requires few { length drivers.now < 2 ^ 32 }
    requires within { AreWithin drivers.now }
    requires pin { pin.0 < length drivers.now }
    requires grown { IsGrown (drive_of drivers.now) marks.old (length drivers.now) pin.0 order.old.items }
    ensures { OnOk result (IsGrown (drive_of drivers.now) marks.new (length drivers.now) (pin.0 + 1) order.new.items) }
{
    if let Mark::Settled(_) = marks[pin.0 as usize] {
        return Ok(());
    }
    path.clear();
    let top = climb(drivers, marks, path, pin)?;
    let path = path.as_slice();
    settle_top(marks, &path[top..]);
    settle(drivers, marks, path, top, order)
}

/// Settles each pin in its tree, and lists the pins below others, each behind those that lead to it.
pub fn grow(alloc: Global, drivers: &[Option<PinId>]) -> Result<(Vec<Mark>, Vec<PinId>), AllocError>
    requires few { length drivers.now < 2 ^ 32 }
    requires within { AreWithin drivers.now }
    ensures { IfOk result (λ r. IsForest drivers.now r.0.items r.1.items) }
{
    let pins = drivers.len() as u32;
    let mut marks = vec![in alloc; Mark::New; pins as usize]?;
    let mut order = Vec::new(alloc);
    let mut path = Vec::new(alloc);
    for pin in 0..pins {
        grow_at(drivers, &mut marks, &mut path, &mut order, PinId(pin))?;
    }
    Ok((marks, order))
}
