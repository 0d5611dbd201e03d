ghost use Rattle.std.specs.Prelude.{◌≡◌, ◌<◌, ◌≤◌, length, All, [], ◌∷◌, IfSome};
ghost use Rattle.bud_design.specs.Designs.{is_pin_of};
ghost use Rattle.bud_design.specs.Lists.{first_some};
ghost use Rattle.block_theory.specs.Blocks.{least_pin, group_inside, through_inside};
ghost use Rattle.through_pins.specs.Groups.{ArePinsBelow, HasGroupsBelow};

use bud_base::PinId;
use bud_design::{Exception, PinList};
use flat_design::Flat;
use policy_lines::is_inside;

/// Whether a pin is a port bit of a block or lies inside it.
fn is_within(flat: &Flat, block: u32, pin: PinId) -> bool
    requires { pin.0 < length flat.now.pins }
    ensures { result ≡ is_pin_of flat.now block pin.0 }
{
    let place = flat.pins()[pin.0 as usize].place;
    is_inside(flat.places(), block, place)
}

/// The lesser of a pin and, where there is one, another.
fn lesser(best: Option<u32>, pin: PinId) -> Option<u32>
    ensures least { result ≡ least_pin best (pin ∷ []) }
    ensures most { IfSome result (λ least. least ≤ pin.0) }
{
    match best {
        Some(best) => Some(best.min(pin.0)),
        None => Some(pin.0),
    }
}

/// The least pin of a group that is a port bit of a block or lies inside it.
fn pin_of_group(flat: &Flat, block: u32, group: &[PinId]) -> Option<u32>
    requires { ArePinsBelow (length flat.now.pins) group.now }
    ensures pin { result ≡ group_inside flat.now block group.now }
    ensures within { IfSome result (λ pin. pin < length flat.now.pins) }
{
    let mut best = None;
    for pin in group {
        if is_within(flat, block, *pin) {
            best = lesser(best, *pin);
        }
    }
    best
}

/// That of the first group that has one.
fn pin_of_exception(flat: &Flat, block: u32, groups: &[PinList]) -> Option<u32>
    requires { All (ArePinsBelow (length flat.now.pins)) groups.now }
    ensures pin { result ≡ first_some (group_inside flat.now block) groups.now }
    ensures within { IfSome result (λ pin. pin < length flat.now.pins) }
{
    for group in groups {
        if let Some(pin) = pin_of_group(flat, block, group.as_slice()) {
            return Some(pin);
        }
    }
    None
}

/// That of the first exception that has one.
fn pin_of_block(flat: &Flat, block: u32, exceptions: &[Exception]) -> Option<u32>
    requires { All (HasGroupsBelow (length flat.now.pins)) exceptions.now }
    ensures pin { result ≡ first_some (λ e. first_some (group_inside flat.now block) e.groups) exceptions.now }
    ensures within { IfSome result (λ pin. pin < length flat.now.pins) }
{
    for exception in exceptions {
        if let Some(pin) = pin_of_exception(flat, block, exception.groups.as_slice()) {
            return Some(pin);
        }
    }
    None
}

/// The first through pin that is a port bit of a block or lies inside it: by block, then exception, then group, and then the least number.
pub fn first_through_pin(flat: &Flat, blocks: &[u32], exceptions: &[Exception]) -> Option<u32>
    requires { All (HasGroupsBelow (length flat.now.pins)) exceptions.now }
    ensures pin { result ≡ through_inside flat.now blocks.now exceptions.now }
    ensures within { IfSome result (λ pin. pin < length flat.now.pins) }
{
    for block in blocks {
        if let Some(pin) = pin_of_block(flat, *block, exceptions) {
            return Some(pin);
        }
    }
    None
}
