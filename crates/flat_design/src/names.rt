ghost use Rattle.std.specs.Prelude.{◌≡◌, ◌<◌, ◌++◌, length};
ghost use Rattle.std.specs.Str.{bytes_eq};
ghost use Rattle.bud_design.specs.DesignRules.{IsPrintedForm};
ghost use Rattle.bud_design.specs.Designs.{place_at, place_name};
ghost use Rattle.bud_design.specs.Names.{bit_name};
ghost use Rattle.flat_design.specs.Flats.{ArePlaces};
ghost use Rattle.flat_design.specs.Fronts.{formed, front};

use crate::texts::{Form, before_end, before_last, before_name};
use bud_design::{Pin, Place};

/// The place that a place stands in.
pub fn above(places: &[Place], place: usize) -> Option<u32>
    requires { place < length places.now }
    ensures { result ≡ (place_at places.now place).parent }
{
    places[place].parent
}

/// The place's own name.
pub fn own_name(places: &[Place], place: usize) -> &[u8]
    requires { place < length places.now }
    ensures { result.now ≡ (place_at places.now place).name }
{
    places[place].name.as_slice()
}

/// Whether this stands before the names of what is in the place.
fn is_front(places: &[Place], place: u32, text: &[u8], form: Form) -> bool
    requires places { ArePlaces places.now }
    requires place { place < length places.now }
    ensures { result ≡ bytes_eq (front form places.now place) text.now }
{
    let mut rest = text;
    let mut place = place as usize;
    while let Some(parent) = above(places, place) {
        let Some(before) = before_end(rest, b"/") else {
            return false;
        };
        let Some(before) = before_name(before, own_name(places, place), form) else {
            return false;
        };
        rest = before;
        place = parent as usize;
    }
    rest.is_empty()
}

/// Whether the pin has this name.
pub fn is_pin(places: &[Place], pin: &Pin, name: &[u8], form: Form) -> bool
    requires places { ArePlaces places.now }
    requires place { pin.now.place < length places.now }
    requires port { IsPrintedForm pin.now.port }
    ensures { result ≡ bytes_eq (front form places.now pin.now.place ++ formed form (bit_name pin.now.port pin.now.bit)) name.now }
{
    match before_last(name, pin.port.as_slice(), pin.bit, form) {
        Some(before) => is_front(places, pin.place, before, form),
        None => false,
    }
}

/// Whether the instance has this name.
pub fn is_instance(places: &[Place], place: u32, name: &[u8], form: Form) -> bool
    requires places { ArePlaces places.now }
    requires place { place < length places.now }
    requires below { 0 < place }
    ensures { result ≡ bytes_eq (formed form (place_name places.now 0 place)) name.now }
{
    let place = place as usize;
    let Some(parent) = above(places, place) else {
        return false;
    };
    match before_name(name, own_name(places, place), form) {
        Some(before) => is_front(places, parent, before, form),
        None => false,
    }
}
