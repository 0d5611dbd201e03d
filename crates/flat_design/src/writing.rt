ghost use Rattle.std.specs.Prelude.{◌≡◌, ◌<◌, ◌++◌, [], ◌∷◌, length, reverse, IfOk, OnOk, OnErr};
ghost use Rattle.bud_design.specs.Designs.{place_name};
ghost use Rattle.bud_design.specs.Names.{bit_name};
ghost use Rattle.flat_design.specs.Flats.{ArePlaces};
ghost use Rattle.flat_design.specs.Fronts.{front, brackets};
ghost use Rattle.flat_design.specs.declared.texts.Form.TheVariants.{Printed};

use crate::names::{above, own_name};
use bud_design::{Pin, Place};
use itoa::Buffer;
use std::alloc::{AllocError, Global};

/// Adds the bytes of the piece, the last one first.
fn put_backwards(text: &mut Vec<u8>, piece: &[u8]) -> Result<(), AllocError>
    ensures { OnOk result (text.new.items ≡ text.old.items ++ reverse piece.now) }
{
    for left in 0..piece.len() {
        text.push(piece[piece.len() - 1 - left])?;
    }
    Ok(())
}

/// Adds a bit's number in brackets, the last byte first.
fn put_brackets_backwards(text: &mut Vec<u8>, bit: Option<u32>) -> Result<(), AllocError>
    ensures { OnOk result (text.new.items ≡ text.old.items ++ reverse (brackets bit)) }
{
    let Some(number) = bit else {
        return Ok(());
    };
    let mut buffer = Buffer::new();
    text.push(b']')?;
    put_backwards(text, buffer.format(number).as_bytes())?;
    text.push(b'[')?;
    Ok(())
}

/// Adds what stands before the names of what is in the place, the last byte first.
fn put_front_backwards(text: &mut Vec<u8>, places: &[Place], place: u32) -> Result<(), AllocError>
    requires places { ArePlaces places.now }
    requires place { place < length places.now }
    ensures { OnOk result (text.new.items ≡ text.old.items ++ reverse (front Printed places.now place)) }
{
    let mut place = place as usize;
    while let Some(parent) = above(places, place) {
        text.push(b'/')?;
        put_backwards(text, own_name(places, place))?;
        place = parent as usize;
    }
    Ok(())
}

/// The pin's printed name, the last byte first.
pub fn name_backwards(alloc: Global, places: &[Place], pin: &Pin) -> Result<Vec<u8>, AllocError>
    requires places { ArePlaces places.now }
    requires place { pin.now.place < length places.now }
    ensures { IfOk result (λ text. text.items ≡ reverse (front Printed places.now pin.now.place ++ bit_name pin.now.port pin.now.bit)) }
{
    let mut text = Vec::new(alloc);
    put_brackets_backwards(&mut text, pin.bit)?;
    put_backwards(&mut text, pin.port.as_slice())?;
    put_front_backwards(&mut text, places, pin.place)?;
    Ok(text)
}

/// The place's printed name, the last byte first.
pub fn place_backwards(alloc: Global, places: &[Place], place: u32) -> Result<Vec<u8>, AllocError>
    requires places { ArePlaces places.now }
    requires place { place < length places.now }
    ensures { IfOk result (λ text. text.items ≡ reverse (place_name places.now 0 place)) }
{
    let mut text = Vec::new(alloc);
    let Some(parent) = above(places, place as usize) else {
        return Ok(text);
    };
    put_backwards(&mut text, own_name(places, place as usize))?;
    put_front_backwards(&mut text, places, parent)?;
    Ok(text)
}
