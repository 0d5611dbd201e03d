ghost use Rattle.std.specs.Prelude.{◌≡◌, ◌<◌, length, All, IfOk};
ghost use Rattle.bud_design.specs.Designs.{place_name};
ghost use Rattle.bud_design.specs.Names.{plain};
ghost use Rattle.flat_design.specs.Flats.{ArePlaces};
ghost use Rattle.flat_design.specs.Fronts.{brackets, IsShort};
ghost use Rattle.flat_design.specs.Keyed.{HaveKeys, HavePinKeys, front_key, pin_key};
ghost use Rattle.flat_design.specs.Kinds.{name_key};
ghost use Rattle.name_tables.specs.Keys.{key_from, key_of};

use crate::names::{above, own_name};
use crate::texts::Form;
use bud_design::{Pin, Place};
use itoa::Buffer;
use name_tables::{key_behind, plain_key_behind};
use std::alloc::{AllocError, Global};

/// The key of the objects that have this name in this form.
pub fn name_key(name: &[u8], form: Form) -> u32
    ensures { result ≡ name_key form name.now }
{
    match form {
        Form::Printed => plain_key_behind(0, name),
        Form::Plain => key_behind(0, name),
    }
}

/// The key of what stands before the plain names of what is in a place.
fn front_key(keys: &[u32], place: u32) -> u32
    requires { place < length keys.now }
    ensures { result ≡ front_key keys.now place }
{
    if place == 0 {
        return 0;
    }
    key_behind(keys[place as usize], b"/")
}

/// The key of a place's plain name, by the keys of the places before.
fn place_key(places: &[Place], keys: &[u32], place: usize) -> u32
    requires places { ArePlaces places.now }
    requires place { place < length places.now }
    requires keys { HaveKeys places.now place keys.now }
    ensures { result ≡ key_of (plain (place_name places.now 0 place)) }
{
    let Some(parent) = above(places, place) else {
        return 0;
    };
    plain_key_behind(front_key(keys, parent), own_name(places, place))
}

/// The keys of the places' plain names.
pub fn place_keys(alloc: Global, places: &[Place]) -> Result<Vec<u32>, AllocError>
    requires { ArePlaces places.now }
    ensures { IfOk result (λ keys. HaveKeys places.now (length places.now) keys.items) }
{
    let mut keys = Vec::with_capacity(alloc, places.len())?;
    for place in 0..places.len() {
        let key = place_key(places, keys.as_slice(), place);
        keys.push(key)?;
    }
    Ok(keys)
}

/// The key of a bit's number in brackets behind a text that has this key.
fn brackets_key(key: u32, bit: Option<u32>) -> u32
    ensures key { result ≡ key_from key (brackets bit) }
    ensures short { IsShort bit }
{
    let Some(number) = bit else {
        return key;
    };
    let mut buffer = Buffer::new();
    let key = key_behind(key, b"[");
    let key = key_behind(key, buffer.format(number).as_bytes());
    key_behind(key, b"]")
}

/// The key of a pin's plain name, by the keys of the places.
fn pin_key(keys: &[u32], pin: &Pin) -> u32
    requires { pin.now.place < length keys.now }
    ensures key { result ≡ pin_key keys.now pin.now }
    ensures short { IsShort pin.now.bit }
{
    let key = plain_key_behind(front_key(keys, pin.place), pin.port.as_slice());
    brackets_key(key, pin.bit)
}

/// The keys of the pins' plain names, by those of the places.
pub fn pin_keys(alloc: Global, keys: &[u32], pins: &[Pin]) -> Result<Vec<u32>, AllocError>
    requires { All (λ pin. pin.place < length keys.now) pins.now }
    ensures { IfOk result (λ out. HavePinKeys keys.now pins.now (length pins.now) out.items) }
{
    let mut out = Vec::with_capacity(alloc, pins.len())?;
    for pin in pins {
        out.push(pin_key(keys, pin))?;
    }
    Ok(out)
}
