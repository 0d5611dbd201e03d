ghost use Rattle.std.specs.Prelude.{◌≡◌, ◌==◌, ◌||◌, ℕ, IfOk, OnOk};
ghost use Rattle.bud_design.specs.Exceptions.{has_pin, group_after};
ghost use Rattle.met_lists.specs.Turns.{has_key, met_by, IsTurn};

use bud_base::PinId;
use bud_design::{Exception, Met, PinList};
use indexmap::IndexSet;
use std::alloc::{AllocError, Global};

/// An exception that launches meet in its turn, with the pins of its first group.
#[derive(Debug, Drop)]
pub struct Turn {
    pub turn: usize,
    pub number: u32,
    pub pins: IndexSet<u32>,
}

fn add_pin(pins: &mut IndexSet<u32>, pin: PinId) -> Result<(), AllocError>
    ensures { OnOk result ((v : ℕ) → has_key pins.new.keys v ≡ (has_key pins.old.keys v || pin.0 == v)) }
{
    match pins.insert_full(pin.0) {
        Ok(_) => Ok(()),
        Err(_) => Err(AllocError),
    }
}

fn pin_set(alloc: Global, group: &[PinId]) -> Result<IndexSet<u32>, AllocError>
    ensures { IfOk result (λ pins. (v : ℕ) → has_key pins.keys v ≡ has_pin group.now v) }
{
    let mut pins = IndexSet::new(alloc);
    for pin in group {
        add_pin(&mut pins, *pin)?;
    }
    Ok(pins)
}

/// The pins of the first group.
fn first_pins(alloc: Global, groups: &[PinList]) -> Result<IndexSet<u32>, AllocError>
    ensures { IfOk result (λ pins. (v : ℕ) → has_key pins.keys v ≡ has_pin (group_after 0 groups.now) v) }
{
    match groups.first() {
        None => Ok(IndexSet::new(alloc)),
        Some(group) => pin_set(alloc, group.as_slice()),
    }
}

impl Turn {
    /// The turn of this number, in which launches meet the exception.
    pub fn of(alloc: Global, turn: usize, exception: &Exception) -> Result<Turn, AllocError>
        ensures { IfOk result (IsTurn turn exception.now) }
    {
        let pins = first_pins(alloc, exception.groups.as_slice())?;
        Ok(Turn {
            turn,
            number: exception.number,
            pins,
        })
    }

    /// The exception as a launch at this pin meets it.
    pub fn met(&self, pin: u32) -> Met
        ensures { result ≡ met_by self.now pin }
    {
        Met {
            number: self.number,
            steps: u32::from(self.pins.contains(&pin)),
        }
    }
}
