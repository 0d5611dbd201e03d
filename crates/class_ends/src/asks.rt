ghost use Rattle.std.specs.Prelude.{◌≡◌, ◌<◌, ◌-ℤ◌, map, length, All, IfOk};
ghost use Rattle.std.specs.Option.{option_map};
ghost use Rattle.bud_base.specs.Leaving.{AreLinks};
ghost use Rattle.bud_design.specs.ConstraintRules.{IsReadTime};
ghost use Rattle.bud_design.specs.Exceptions.{class_requirement};
ghost use Rattle.bud_design.specs.Lists.{lesser as lesser_of};
ghost use Rattle.bud_design.specs.TimingPaths.{least_asked};
ghost use Rattle.class_ends.specs.Asks.{capture_item, with_ask as ask_with, HasSoundConstraints};

use bud_base::{Item, Links, NodeId, PinId};
use bud_design::{Capture, Class, Constraints};
use path_requirements::requirement;
use std::alloc::{AllocError, Global};

fn item_of(capture: &Capture) -> Item
    ensures { result ≡ capture_item capture.now }
{
    Item {
        from: NodeId(capture.pin.0),
        to: NodeId(0),
        least: 0,
        greatest: 0,
        weight: 0,
    }
}

fn items_of(alloc: Global, captures: &[Capture]) -> Result<Vec<Item>, AllocError>
    ensures { IfOk result (λ items. items.items ≡ map capture_item captures.now) }
{
    captures.iter().map(item_of).collect(alloc)
}

/// The captures of each of so many pins.
pub fn link_captures(alloc: Global, captures: &[Capture], pins: u32) -> Result<Links, AllocError>
    requires few { length captures.now < 2147483648 }
    requires pins { All (λ x. x.pin.0 < pins) captures.now }
    ensures links { IfOk result (λ links. AreLinks (map capture_item captures.now) links) }
    ensures pins { IfOk result (λ links. length links.first ≡ pins) }
{
    let items = items_of(alloc, captures)?;
    let mut links = Links::new(alloc, pins, items.len())?;
    links.fill(items.as_slice());
    Ok(links)
}

/// The lesser of a time and, where there is one, another.
fn lesser(time: i64, other: Option<i64>) -> i64
    ensures { result ≡ lesser_of time other }
{
    match other {
        Some(other) => { if time <= other { time } else { other } }
        None => time,
    }
}

/// The least that was found, with one ask more.
fn with_ask(time: Option<i64>, found: Option<i64>) -> Option<i64>
    ensures { result ≡ ask_with time found }
{
    match time {
        None => found,
        Some(time) => Some(lesser(time, found)),
    }
}

/// What a capture asks for by a class, in ps.
fn ask(all: &Constraints, class: &Class, capture: &Capture) -> Option<i64>
    requires sound { HasSoundConstraints all.now }
    requires launch_clock { class.now.clock < length all.now.clocks }
    requires capture_clock { capture.now.clock < length all.now.clocks }
    requires amount { IsReadTime capture.now.amount }
    ensures { result ≡ option_map (λ r. r -ℤ capture.now.amount) (class_requirement all.now class.now capture.now) }
{
    match requirement(all, class, capture) {
        None => None,
        Some(time) => Some(time - capture.amount),
    }
}

/// The least that the captures at a pin ask for by a class, in ps; None where none has a requirement.
pub fn least_ask(all: &Constraints, links: &Links, class: &Class, pin: PinId) -> Option<i64>
    requires sound { HasSoundConstraints all.now }
    requires launch_clock { class.now.clock < length all.now.clocks }
    requires links { AreLinks (map capture_item all.now.captures) links.now }
    requires pin { pin.0 < length links.now.first }
    ensures { result ≡ least_asked all.now.captures pin.0 (class_requirement all.now class.now) }
{
    let captures = all.captures.as_slice();
    let mut least = None;
    let mut next = links.first(NodeId(pin.0));
    while let Some(item) = next {
        least = with_ask(ask(all, class, &captures[item.0 as usize]), least);
        next = links.next(item);
    }
    least
}
