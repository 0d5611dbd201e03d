ghost use Rattle.std.specs.Prelude.{◌≡◌, ℕ, ◌<◌, [], length, slice_index_or, All, IfOk, OnOk};
ghost use Rattle.bud_design.specs.Designs.{place_at};
ghost use Rattle.bud_design.specs.DesignRules.{HasParent};
ghost use Rattle.design_wires.specs.Gathering.{IsKid, IsPinIn};
ghost use Rattle.design_wires.specs.Numbers.{IsBelow, with_kid, AreFirstPins, AreKids};
ghost use Rattle.elaborations.specs.Elaborations.{first_pin, pin_number, place_of};

use bud_base::{Listed, PinId};
use bud_design::{Pin, Place};
use net_drivers::LocalPin;
use std::alloc::{AllocError, Global};

/// Numbers of places.
pub type Kids = Listed<u32>;

/// The first pin of each of so many places, 0 where it has none.
pub fn first_pins(alloc: Global, count: usize, pins: &[Pin]) -> Result<Vec<u32>, AllocError>
    requires in_places { All (λ v. v.place < count) pins.now }
    requires few { length pins.now < 2147483648 }
    ensures { IfOk result (λ firsts. AreFirstPins pins.now count firsts.items) }
{
    let mut firsts = vec![in alloc; 0; count]?;
    for behind in 0..pins.len() {
        let number = pins.len() - 1 - behind;
        let place = pins[number].place;
        firsts[place as usize] = number as u32;
    }
    Ok(firsts)
}

/// An empty list for each of so many places.
fn no_kids(alloc: Global, count: usize) -> Result<Vec<Kids>, AllocError>
    ensures size { IfOk result (λ kids. length kids.items ≡ count) }
    ensures none { IfOk result (λ kids. (p : ℕ) → slice_index_or kids.items p [] ≡ []) }
{
    let mut kids = Vec::new(alloc);
    for _ in 0..count {
        kids.push(Kids::new(alloc))?;
    }
    Ok(kids)
}

/// The place that a place stands in.
fn above(places: &[Place], place: usize) -> Option<u32>
    requires { place < length places.now }
    ensures { result ≡ (place_at places.now place).parent }
{
    places[place].parent
}

/// Adds a place to those in the place that it stands in.
fn put_kid(kids: &mut Vec<Kids>, parent: Option<u32>, number: u32) -> Result<(), AllocError>
    requires { IsBelow (length kids.old.items) parent }
    ensures { OnOk result (kids.new.items ≡ with_kid kids.old.items parent number) }
{
    let Some(parent) = parent else {
        return Ok(());
    };
    kids[parent as usize].push(number)?;
    Ok(())
}

/// The places that stand in each place, in rising order.
pub fn all_kids(alloc: Global, places: &[Place]) -> Result<Vec<Kids>, AllocError>
    requires parents { (p : ℕ) → p < length places.now → HasParent p (place_at places.now p).parent }
    requires few { length places.now < 2147483648 }
    ensures { IfOk result (λ kids. AreKids places.now kids.items) }
{
    let mut kids = no_kids(alloc, places.len())?;
    for number in 0..places.len() {
        put_kid(&mut kids, above(places, number), number as u32)?;
    }
    Ok(kids)
}

/// The numbers of the pins of a design, by place.
#[derive(Drop)]
pub struct Numbers<'d> {
    pub places: &'d [Place],
    pub pins: &'d [Pin],
    firsts: Vec<u32>,
    kids: Vec<Kids>,
    ghost firsts_are: { AreFirstPins pins.now (length places.now) firsts.items },
    ghost kids_are: { AreKids places.now kids.items },
    ghost few: { length pins.now < 2147483648 },
}

impl<'d> Numbers<'d> {
    pub fn new(
        alloc: Global,
        places: &'d [Place],
        pins: &'d [Pin],
    ) -> Result<Numbers<'d>, AllocError>
        requires parents { (p : ℕ) → p < length places.now → HasParent p (place_at places.now p).parent }
        requires in_places { All (λ v. v.place < length places.now) pins.now }
        requires few_places { length places.now < 2147483648 }
        requires few_pins { length pins.now < 2147483648 }
        ensures places { IfOk result (λ numbers. numbers.places.now ≡ places.now) }
        ensures pins { IfOk result (λ numbers. numbers.pins.now ≡ pins.now) }
    {
        let firsts = first_pins(alloc, places.len(), pins)?;
        let kids = all_kids(alloc, places)?;
        Ok(Numbers {
            places,
            pins,
            firsts,
            kids,
        })
    }

    /// The place here, or the one that its instance of this number is.
    fn place_of(&self, home: u32, instance: Option<u32>) -> u32
        requires home { home < length self.now.places.now }
        requires kid { IsKid self.now.places.now home instance }
        ensures { result ≡ place_of self.now.places.now home instance }
    {
        match instance {
            None => home,
            Some(number) => self.kids[home as usize].as_slice()[number as usize],
        }
    }

    /// The first pin of a place.
    fn first_of(&self, place: u32) -> u32
        requires { place < length self.now.places.now }
        ensures { result ≡ first_pin self.now.pins.now place }
    {
        self.firsts[place as usize]
    }

    /// The pin of a place that a pin of its module is.
    pub fn number_of(&self, home: u32, pin: LocalPin) -> PinId
        requires home { home < length self.now.places.now }
        requires within { IsPinIn self.now.places.now self.now.pins.now home pin }
        ensures { result.0 ≡ pin_number self.now.places.now self.now.pins.now home pin }
    {
        let place = self.place_of(home, pin.instance);
        PinId(self.first_of(place) + pin.bit)
    }
}
