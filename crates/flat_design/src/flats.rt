ghost use Rattle.std.specs.Prelude.{◌≡◌, ◌+◌, ◌<◌, ◌≤◌, ◌++◌, Some, length, IfOk, IfSome, OnOk, OnErr};
ghost use Rattle.std.specs.Option.{option_map};
ghost use Rattle.std.specs.Str.{bytes_eq};
ghost use Rattle.bud_design.specs.Designs.{place_name, pin_name, named_pins, named_cells, driver_of};
ghost use Rattle.bud_design.specs.Names.{meaning};
ghost use Rattle.flat_design.specs.Flats.{IsFlat};
ghost use Rattle.flat_design.specs.Fronts.{formed};
ghost use Rattle.flat_design.specs.Kinds.{low_of, count_of, has_name, named_from, meant, keyed, name_key};
ghost use Rattle.name_tables.specs.Chained.{AreChained};

use crate::keys::{name_key, pin_keys, place_keys};
use crate::kinds::Kind;
use crate::names::{is_instance, is_pin};
use crate::texts::Form;
use crate::writing::{name_backwards, place_backwards};
use bud_base::{PinId, Text};
use bud_design::{Pin, Pins, Place, Places, Wire, Wires};
use name_tables::Chains;
use std::alloc::AllocError;
use std::marker::Model;

/// A flat design: the top and its instances, their port bits, and the wires between them.
///
/// Place 0 is the top, and pins are named from it down.
#[derive(Debug, Drop)]
pub struct Flat {
    places: Places,
    pins: Pins,
    wires: Wires,
    bits: Chains,
    instances: Chains,
}

impl Model for Flat {
    ghost use Rattle.bud_design.specs.Designs.{Design};
    ghost use Rattle.flat_design.specs.Kinds.{HasTables};

    ghost Value = { Design };

    ghost view = { λ f. record { places = f.places; pins = f.pins; wires = f.wires } };

    ghost invariant = { λ f. HasTables (record { places = f.places; pins = f.pins; wires = f.wires }) f.bits f.instances };
}

impl Flat {
    /// The design of these lists, or want of memory; names can be looked up from then on.
    ///
    /// It takes time linear in the lists and in the places' and ports' own names.
    pub fn new(places: Places, pins: Pins, wires: Wires) -> Result<Flat, AllocError>
        requires { IsFlat (record { places = places; pins = pins; wires = wires }) }
        ensures { IfOk result (λ flat. flat ≡ record { places = places; pins = pins; wires = wires }) }
    {
        let alloc = places.allocator();
        let place_keys = place_keys(alloc, places.as_slice())?;
        let instances = Chains::of(alloc, 1, place_keys.as_slice())?;
        let pin_keys = pin_keys(alloc, place_keys.as_slice(), pins.as_slice())?;
        let bits = Chains::of(alloc, 0, pin_keys.as_slice())?;
        Ok(Flat {
            places,
            pins,
            wires,
            bits,
            instances,
        })
    }

    /// The top, and then the instances, each before those in it.
    pub fn places(&self) -> &[Place]
        ensures lent { result.now ≡ self.now.places }
        ensures kept { IsFlat self.now }
    {
        self.places.as_slice()
    }

    /// The port bits, in order of their places.
    pub fn pins(&self) -> &[Pin]
        ensures lent { result.now ≡ self.now.pins }
        ensures kept { IsFlat self.now }
    {
        self.pins.as_slice()
    }

    /// The wires, in order of their last pins.
    pub fn wires(&self) -> &[Wire]
        ensures lent { result.now ≡ self.now.wires }
        ensures kept { IsFlat self.now }
    {
        self.wires.as_slice()
    }

    /// How many pins there are.
    pub fn pin_count(&self) -> u32
        ensures count { result ≡ length self.now.pins }
        ensures kept { IsFlat self.now }
    {
        self.pins.len() as u32
    }

    /// How many numbers the objects of a kind have.
    fn count(&self, kind: Kind) -> usize
        ensures count { result ≡ count_of kind self.now }
        ensures low { low_of kind ≤ result }
        ensures few { result < 2147483648 }
    {
        match kind {
            Kind::Bits => self.pins.len(),
            Kind::Instances => self.places.len(),
        }
    }

    /// The objects of a kind by the keys of their plain names.
    fn chains(&self, kind: Kind) -> &Chains
        ensures { AreChained (keyed kind self.now) (low_of kind) (count_of kind self.now) result.now }
    {
        match kind {
            Kind::Bits => &self.bits,
            Kind::Instances => &self.instances,
        }
    }

    /// Whether the pin of this number has this name.
    fn is_bit(&self, number: usize, name: &[u8], form: Form) -> bool
        requires { number < length self.now.pins }
        ensures { result ≡ bytes_eq (formed form (pin_name self.now 0 number)) name.now }
    {
        let pin = &self.pins.as_slice()[number];
        is_pin(self.places.as_slice(), pin, name, form)
    }

    /// Whether the object of this number has this name.
    fn has_name(&self, kind: Kind, number: u32, name: &[u8], form: Form) -> bool
        requires low { low_of kind ≤ number }
        requires below { number < count_of kind self.now }
        ensures { result ≡ has_name kind form self.now name.now number }
    {
        match kind {
            Kind::Bits => self.is_bit(number as usize, name, form),
            Kind::Instances => is_instance(self.places.as_slice(), number, name, form),
        }
    }

    /// The first object from this one on that has this name, along the chain of its key.
    fn named_from(&self, kind: Kind, start: u32, name: &[u8], form: Form) -> Option<u32>
        requires low { low_of kind ≤ start }
        requires end { start ≤ count_of kind self.now }
        requires key { start < count_of kind self.now → keyed kind self.now start ≡ name_key form name.now }
        ensures { result ≡ named_from kind form self.now name.now start }
    {
        let count = self.count(kind);
        let chains = self.chains(kind);
        let mut number = start;
        while (number as usize) < count {
            if self.has_name(kind, number, name, form) {
                return Some(number);
            }
            number = chains.next(number);
        }
        None
    }

    /// The first object that has this name.
    fn first_named(&self, kind: Kind, name: &[u8], form: Form) -> Option<u32>
        ensures { result ≡ named_from kind form self.now name.now (low_of kind) }
    {
        let _ = &self.pins;
        let start = self.chains(kind).first(name_key(name, form));
        self.named_from(kind, start, name, form)
    }

    /// The first object behind one of this name that has it too.
    fn next_named(&self, kind: Kind, number: u32, name: &[u8], form: Form) -> Option<u32>
        requires named { named_from kind form self.now name.now (low_of kind) ≡ Some number }
        ensures { result ≡ named_from kind form self.now name.now (number + 1) }
    {
        let start = self.chains(kind).next(number);
        self.named_from(kind, start, name, form)
    }

    /// The object that a name means: the one with this printed name, else the only one with this plain name.
    fn meant(&self, kind: Kind, name: &[u8]) -> Option<u32>
        ensures { result ≡ meant kind self.now name.now }
    {
        if let Some(number) = self.first_named(kind, name, Form::Printed) {
            return Some(number);
        }
        let Some(number) = self.first_named(kind, name, Form::Plain) else {
            return None;
        };
        match self.next_named(kind, number, name, Form::Plain) {
            Some(_) => None,
            None => Some(number),
        }
    }

    /// The pin that a name means: the one with this printed name, else the only one with this plain name.
    pub fn find_pin(&self, name: &[u8]) -> Option<PinId>
        ensures meaning { option_map (λ pin. pin.0) result ≡ meaning (named_pins self.now 0) name.now }
        ensures within { IfSome result (λ pin. pin.0 < length self.now.pins) }
    {
        let _ = &self.pins;
        match self.meant(Kind::Bits, name) {
            Some(number) => Some(PinId(number)),
            None => None,
        }
    }

    /// The instance that a name means: the one with this printed name, else the only one with this plain name.
    pub fn find_place(&self, name: &[u8]) -> Option<u32>
        ensures meaning { result ≡ meaning (named_cells self.now 0) name.now }
        ensures within { IfSome result (λ p. p < length self.now.places) }
    {
        let _ = &self.places;
        self.meant(Kind::Instances, name)
    }

    /// Whether this is the pin's printed name.
    pub fn pin_is_named(&self, pin: PinId, name: &[u8]) -> bool
        requires { pin.0 < length self.now.pins }
        ensures { result ≡ bytes_eq (pin_name self.now 0 pin.0) name.now }
    {
        self.is_bit(pin.0 as usize, name, Form::Printed)
    }

    /// Adds the pin's printed name; for want of memory the text stays.
    pub fn name_of(&self, pin: PinId, into: &mut Text) -> Result<(), AllocError>
        requires { pin.0 < length self.now.pins }
        ensures ok { OnOk result (into.new ≡ into.old ++ pin_name self.now 0 pin.0) }
        ensures err { OnErr result (into.new ≡ into.old) }
    {
        let pin = &self.pins.as_slice()[pin.0 as usize];
        let mut name = name_backwards(into.allocator(), self.places.as_slice(), pin)?;
        name.reverse();
        into.extend_from_slice(name.as_slice())
    }

    /// Adds the place's printed name, which is empty for the top; for want of memory the text stays.
    pub fn name_of_place(&self, place: u32, into: &mut Text) -> Result<(), AllocError>
        requires { place < length self.now.places }
        ensures ok { OnOk result (into.new ≡ into.old ++ place_name self.now.places 0 place) }
        ensures err { OnErr result (into.new ≡ into.old) }
    {
        let mut name = place_backwards(into.allocator(), self.places.as_slice(), place)?;
        name.reverse();
        into.extend_from_slice(name.as_slice())
    }

    /// The first pin of the wire that ends at this one.
    pub fn driver(&self, pin: PinId) -> Option<PinId>
        requires { pin.0 < length self.now.pins }
        ensures driver { option_map (λ driver. driver.0) result ≡ driver_of self.now.wires pin.0 }
        ensures within { IfSome result (λ driver. driver.0 < length self.now.pins) }
    {
        for wire in self.wires.as_slice() {
            if wire.to == pin {
                return Some(wire.from);
            }
        }
        None
    }
}
