ghost use Rattle.std.specs.Prelude.{◌≡◌, ◌++◌, ◌<◌, ◌≤◌, length, map, filter, find, All, AllPairs, OnOk, IfOk};
ghost use Rattle.std.specs.Option.{option_map};
ghost use Rattle.std.specs.Str.{bytes_eq};
ghost use Rattle.bud_design.specs.Designs.{pin_at, bits_of};
ghost use Rattle.bud_design.specs.Lists.{only};
ghost use Rattle.bud_design.specs.Names.{plain, bit_name, meaning};
ghost use Rattle.timing_objects.specs.PortNames.{design_of, numbers, AreBelow, named_as, HasPlain, bit_named, vector_named, has_port, comes_before, leads_among, ArePortNames};

use crate::orders::span_of;
use bud_base::{Listed, PinId, Text};
use bud_design::{Pin, PinList};
use itoa::Buffer;
use std::alloc::{AllocError, Global};

/// A name that means port bits of the top: a bit's own, or a vector's.
#[derive(Debug, Drop)]
pub struct PortName {
    pub printed: Text,
    pub plain: Text,
    pub pins: PinList,
}

pub type PortNames = Listed<PortName>;

/// The port bits of a place, in time linear in them.
pub fn bits_of(alloc: Global, pins: &[Pin], place: u32) -> Result<PinList, AllocError>
    requires few { length pins.now < 2147483648 }
    requires together { AllPairs (λ u v. u.place ≤ v.place) pins.now }
    ensures bits { IfOk result (λ bits. numbers bits ≡ bits_of (design_of pins.now) place) }
    ensures below { IfOk result (AreBelow pins.now) }
{
    let span = span_of(pins, place);
    let mut bits = Vec::new(alloc);
    for number in span.start..span.end {
        bits.push(PinId(number as u32))?;
    }
    Ok(PinList::from_vec(bits))
}

/// The plain name: a printed name without the backslashes that printing puts.
fn plain(alloc: Global, name: &[u8]) -> Result<Text, AllocError>
    ensures { IfOk result (λ text. text ≡ plain name.now) }
{
    let mut text = Vec::new(alloc);
    let mut escaped = false;
    for byte in name {
        if !escaped && *byte == b'\\' {
            escaped = true;
        } else {
            text.push(*byte)?;
            escaped = false;
        }
    }
    Ok(Text::from_vec(text))
}

/// The name of a port's bit.
fn bit_name(alloc: Global, port: &[u8], bit: Option<u32>) -> Result<Text, AllocError>
    ensures { IfOk result (λ text. text ≡ bit_name port.now bit) }
{
    let mut text = Vec::from_slice(alloc, port)?;
    if let Some(number) = bit {
        let mut buffer = Buffer::new();
        text.push(b'[')?;
        text.extend_from_slice(buffer.format(number).as_bytes())?;
        text.push(b']')?;
    }
    Ok(Text::from_vec(text))
}

/// The name, with its plain form, for these pins.
fn named(alloc: Global, printed: Text, pins: PinList) -> Result<PortName, AllocError>
    ensures named { IfOk result (λ name. named_as name ≡ record { name = printed; object = numbers pins }) }
    ensures plain { IfOk result HasPlain }
{
    let plain = plain(alloc, printed.as_slice())?;
    Ok(PortName {
        printed,
        plain,
        pins,
    })
}

/// The bits of the port of this name.
fn bits_of_port(
    alloc: Global,
    pins: &[Pin],
    bits: &[PinId],
    port: &[u8],
) -> Result<PinList, AllocError>
    requires { AreBelow pins.now bits.now }
    ensures { IfOk result (λ found. numbers found ≡ filter (has_port pins.now port.now) (numbers bits.now)) }
{
    let mut found = Vec::new(alloc);
    for bit in bits {
        if pins[bit.0 as usize].port.as_slice() == port {
            found.push(*bit)?;
        }
    }
    Ok(PinList::from_vec(found))
}

/// Whether the bit is one of a vector, and the first of its port.
fn leads_vector(pins: &[Pin], bits: &[PinId], bit: PinId) -> bool
    requires bits { AreBelow pins.now bits.now }
    requires bit { bit.0 < length pins.now }
    ensures { result ≡ leads_among pins.now (numbers bits.now) bit.0 }
{
    pins[bit.0 as usize].bit.is_some() && !has_port_before(pins, bits, bit)
}

/// Whether a bit before this one is of the same port.
fn has_port_before(pins: &[Pin], bits: &[PinId], bit: PinId) -> bool
    requires bits { AreBelow pins.now bits.now }
    requires bit { bit.0 < length pins.now }
    ensures { result ≡ comes_before pins.now (pin_at pins.now bit.0).port bit.0 (numbers bits.now) }
{
    let port = pins[bit.0 as usize].port.as_slice();
    for other in bits {
        if *other == bit {
            return false;
        }
        if pins[other.0 as usize].port.as_slice() == port {
            return true;
        }
    }
    false
}

/// A bit by its own name.
fn named_bit(alloc: Global, pins: &[Pin], bit: PinId) -> Result<PortName, AllocError>
    requires { bit.0 < length pins.now }
    ensures named { IfOk result (λ name. named_as name ≡ bit_named pins.now bit.0) }
    ensures plain { IfOk result HasPlain }
{
    let pin = &pins[bit.0 as usize];
    let printed = bit_name(alloc, pin.port.as_slice(), pin.bit)?;
    let mut only = PinList::new(alloc);
    only.push(bit)?;
    named(alloc, printed, only)
}

/// The bits of a bit's port, by the port's name.
fn named_vector(
    alloc: Global,
    pins: &[Pin],
    bits: &[PinId],
    bit: PinId,
) -> Result<PortName, AllocError>
    requires bits { AreBelow pins.now bits.now }
    requires bit { bit.0 < length pins.now }
    ensures named { IfOk result (λ name. named_as name ≡ vector_named pins.now (numbers bits.now) bit.0) }
    ensures plain { IfOk result HasPlain }
{
    let port = pins[bit.0 as usize].port.as_slice();
    let vector = bits_of_port(alloc, pins, bits, port)?;
    let printed = Text::from_slice(alloc, port)?;
    named(alloc, printed, vector)
}

/// The names of bits.
fn bit_names(alloc: Global, pins: &[Pin], bits: &[PinId]) -> Result<Vec<PortName>, AllocError>
    requires { AreBelow pins.now bits.now }
    ensures named { IfOk result (λ names. map named_as names.items ≡ map (bit_named pins.now) (numbers bits.now)) }
    ensures plain { IfOk result (λ names. All HasPlain names.items) }
{
    let mut names = Vec::new(alloc);
    for bit in bits {
        let name = named_bit(alloc, pins, *bit)?;
        names.push(name)?;
    }
    Ok(names)
}

/// Adds the names of the vectors among bits.
fn add_vectors(
    alloc: Global,
    pins: &[Pin],
    bits: &[PinId],
    names: &mut Vec<PortName>,
) -> Result<(), AllocError>
    requires bits { AreBelow pins.now bits.now }
    requires plain { All HasPlain names.old.items }
    ensures named { OnOk result (map named_as names.new.items ≡ map named_as names.old.items ++ map (vector_named pins.now (numbers bits.now)) (filter (leads_among pins.now (numbers bits.now)) (numbers bits.now))) }
    ensures plain { OnOk result (All HasPlain names.new.items) }
{
    for bit in bits {
        if leads_vector(pins, bits, *bit) {
            let name = named_vector(alloc, pins, bits, *bit)?;
            names.push(name)?;
        }
    }
    Ok(())
}

/// The names of the top's ports: each bit by its own name, and each vector by its name, which means all its bits.
pub fn port_names(alloc: Global, pins: &[Pin]) -> Result<PortNames, AllocError>
    requires few { length pins.now < 2147483648 }
    requires together { AllPairs (λ u v. u.place ≤ v.place) pins.now }
    ensures { IfOk result (ArePortNames pins.now) }
{
    let bits = bits_of(alloc, pins, 0)?;
    let mut names = bit_names(alloc, pins, bits.as_slice())?;
    add_vectors(alloc, pins, bits.as_slice(), &mut names)?;
    Ok(PortNames::from_vec(names))
}
