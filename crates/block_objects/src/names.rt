ghost use Rattle.std.specs.Prelude.{◌≡◌, ◌++◌, ◌≤◌, ◌↔◌, length, drop, decimal, IsTrue, IfOk};
ghost use Rattle.bud_design.specs.Designs.{pin_name as name_below};
ghost use Rattle.block_theory.specs.BlockClocks.{prefix};
ghost use Rattle.flat_design.specs.Flats.{IsFlat};
ghost use Rattle.block_objects.specs.Names.{AreBlockNames, IsPinIn};

use bud_base::{PinId, Text};
use bud_design::Constraints;
use flat_design::Flat;
use itoa::Buffer;
use policy_lines::is_inside;
use std::alloc::{AllocError, Global};

/// What the names of a block's file are made from: a design, its constraints, and the place of the block; what stands
/// before the printed names of pins inside the block, and the prefix of virtual clocks' names.
#[derive(Clone, Copy)]
pub struct BlockNames<'a> {
    pub flat: &'a Flat,
    pub all: &'a Constraints,
    pub block: u32,
    pub front: &'a [u8],
    pub prefix: &'a [u8],
}

/// Whether a pin of the design is at or below the block.
fn is_pin_in(flat: &Flat, block: u32, pin: u32) -> bool
    ensures value { IsTrue result ↔ IsPinIn flat.now block pin }
    ensures kept { IsFlat flat.now }
{
    match flat.pins().get(pin as usize) {
        Some(pin) => is_inside(flat.places(), block, pin.place),
        None => false,
    }
}

fn behind(text: &[u8], count: usize) -> &[u8]
    requires { count ≤ length text.now }
    ensures { result.now ≡ drop count text.now }
{
    &text[count..]
}

/// The printed name that a pin at or below the block has in the block's design.
fn name_inside(alloc: Global, names: &BlockNames<'_>, pin: u32) -> Result<Text, AllocError>
    requires design { IsFlat names.now.flat.now }
    requires names { AreBlockNames names.now }
    requires pin { IsPinIn names.now.flat.now names.now.block pin }
    ensures { IfOk result (λ text. text ≡ name_below names.now.flat.now names.now.block pin) }
{
    let mut name = Text::new(alloc);
    names.flat.name_of(PinId(pin), &mut name)?;
    Text::from_slice(alloc, behind(name.as_slice(), names.front.len()))
}

/// The printed name of a pin in the block's design, where it is at or below the block, or want of memory.
pub fn pin_name(alloc: Global, names: &BlockNames<'_>, pin: u32) -> Result<Text, AllocError>
    requires { AreBlockNames names.now }
    ensures { IfOk result (λ text. text ≡ name_below names.now.flat.now names.now.block pin) }
{
    if is_pin_in(names.flat, names.block, pin) {
        name_inside(alloc, names, pin)
    } else {
        Err(AllocError)
    }
}

/// The name of the virtual clock of a class.
pub fn virtual_name(alloc: Global, names: &BlockNames<'_>, class: u32) -> Result<Text, AllocError>
    requires { AreBlockNames names.now }
    ensures { IfOk result (λ text. text ≡ prefix names.now.all.now.clocks ++ decimal class) }
{
    let mut buffer = Buffer::new();
    let mut name = Text::from_slice(alloc, names.prefix)?;
    name.extend_from_slice(buffer.format(class).as_bytes())?;
    Ok(name)
}
