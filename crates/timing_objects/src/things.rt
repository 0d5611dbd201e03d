ghost use Rattle.std.specs.Prelude.{◌≡◌, [], ◌∷◌, ◌++◌, OnOk};

use bud_base::PinId;
use smallvec::SmallVec;
use std::alloc::{AllocError, Global};
use std::marker::Model;

/// One thing that an object stands for.
#[derive(Clone, Copy, Debug, PartialEq, Eq)]
pub enum Thing {
    Pin(PinId),
    /// An instance, by its place.
    Cell(u32),
    /// A clock, by its number.
    Clock(u32),
}

impl Default for Thing {
    fn default() -> Thing {
        Thing::Cell(0)
    }
}

/// The things that objects stand for. One alone, as most objects have, stands in the value itself.
#[derive(Debug, Drop)]
pub struct Things {
    things: SmallVec<Thing, 1>,
}

impl Model for Things {
    ghost use Rattle.std.specs.Prelude.{List};
    ghost use Rattle.timing_objects.specs.declared.things.Thing.{Thing};

    ghost Value = { List Thing };

    ghost view = { λ t. t.things.items };
}

impl Things {
    /// No things.
    pub fn new(alloc: Global) -> Things
        ensures { result ≡ [] }
    {
        Things {
            things: SmallVec::new(alloc),
        }
    }

    pub fn from_vec(vec: Vec<Thing>) -> Things
        ensures { result ≡ vec.items }
    {
        Things {
            things: SmallVec::from_vec(vec),
        }
    }

    pub fn as_slice(&self) -> &[Thing]
        ensures { result.now ≡ self.now }
    {
        self.things.as_slice()
    }

    /// Adds a thing at the end.
    pub fn push(&mut self, thing: Thing) -> Result<(), AllocError>
        ensures { OnOk result (self.new ≡ self.old ++ thing ∷ []) }
    {
        self.things.push(thing)?;
        Ok(())
    }
}

/// What a command names an object as.
#[derive(Clone, Copy, Debug, PartialEq, Eq)]
pub enum Role {
    /// A source of a clock.
    Source,
    /// A port with an input delay.
    Input,
    /// A port with an output delay.
    Output,
    /// A part of where paths begin.
    Start,
    /// A part of where paths end.
    End,
    /// A part of what paths pass.
    Through,
}
