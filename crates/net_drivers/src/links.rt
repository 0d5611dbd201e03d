ghost use Rattle.std.specs.Prelude.{◌≡◌, ◌<◌, ℕ, length, map, replicate, None, OnOk, slice_index_or};
ghost use Rattle.std.specs.List.{position_from};
ghost use Rattle.std.specs.Option.{option_map};
ghost use Rattle.module_nets.specs.Headers.{port_called};
ghost use Rattle.module_nets.specs.Nets.{pieces_of_link};
ghost use Rattle.net_drivers.specs.Slots.{IsBelow};
ghost use Rattle.net_drivers.specs.Links.{AreNamedLinks, IsJoining, place_named, placed_from, names, noted, nth, earlier, link_from};

use bud_syntax::{Link, Piece, Port};
use module_nets::Header;
use std::alloc::{AllocError, Global};

/// The pieces of a link.
pub fn pieces_of(link: &Link) -> &[Piece]
    ensures { result.now ≡ pieces_of_link link.now }
{
    match link {
        Link::Named(_, pieces) => pieces.as_slice(),
        Link::Placed(pieces) => pieces.as_slice(),
    }
}

/// The place of the first port of the name that the link gives; it may well be the one at the place `near`.
fn place_named(header: &Header<'_>, link: &Link, near: usize) -> Option<usize>
    ensures { result ≡ place_named header.now.module.now link.now }
{
    match link {
        Link::Named(port, _) => header.find(port.as_slice(), near),
        Link::Placed(_) => None,
    }
}

/// Notes the number at the place, unless one is there.
fn note(places: &mut Vec<Option<usize>>, place: Option<usize>, number: usize)
    requires { IsBelow (length places.old.items) place }
    ensures { places.new.items ≡ noted place number places.old.items }
{
    if let Some(place) = place {
        if places[place].is_none() {
            places[place] = Some(number);
        }
    }
}

/// Makes the list one of so many numbers, of which there is none.
fn clear_to(named: &mut Vec<Option<usize>>, count: usize) -> Result<(), AllocError>
    ensures { OnOk result (named.new.items ≡ replicate count None) }
{
    named.clear();
    named.resize(count, None)?;
    Ok(())
}

/// Makes the list that of the first link that names each port, the port being the first of its name.
fn name_links(
    named: &mut Vec<Option<usize>>,
    header: &Header<'_>,
    links: &[Link],
) -> Result<(), AllocError>
    ensures { OnOk result (AreNamedLinks header.now.module.now links.now named.new.items) }
{
    clear_to(named, header.module.ports.len())?;
    for (number, link) in links.iter().enumerate() {
        let place = place_named(header, link, number);
        note(named, place, number);
    }
    Ok(())
}

/// Makes the list that of the links that name no port.
fn place_links(placed: &mut Vec<usize>, links: &[Link]) -> Result<(), AllocError>
    ensures { OnOk result (placed.new.items ≡ placed_from 0 links.now) }
{
    placed.clear();
    for (number, link) in links.iter().enumerate() {
        if let Link::Placed(_) = link {
            placed.push(number)?;
        }
    }
    Ok(())
}

/// Which links join the ports of an instance: the first that names each port, and those that name none.
#[derive(Drop)]
pub struct Joining {
    named: Vec<Option<usize>>,
    placed: Vec<usize>,
}

impl Joining {
    /// No links yet.
    pub fn new(alloc: Global) -> Joining {
        Joining {
            named: Vec::new(alloc),
            placed: Vec::new(alloc),
        }
    }

    /// Makes it say which of these links join ports.
    pub fn fill(&mut self, header: &Header<'_>, links: &[Link]) -> Result<(), AllocError>
        ensures { OnOk result (IsJoining header.now.module.now links.now self.new.named.items self.new.placed.items) }
    {
        name_links(&mut self.named, header, links)?;
        place_links(&mut self.placed, links)?;
        Ok(())
    }
}

/// The element at a place, where there is one.
fn nth(numbers: &[usize], place: usize) -> Option<usize>
    ensures { result ≡ nth numbers.now place }
{
    if place < numbers.len() {
        Some(numbers[place])
    } else {
        None
    }
}

/// The one that stands before the other.
fn earlier(a: Option<usize>, b: Option<usize>) -> Option<usize>
    ensures { result ≡ earlier a b }
{
    match (a, b) {
        (None, _) => b,
        (Some(_), None) => a,
        (Some(one), Some(other)) => if one <= other { a } else { b },
    }
}

/// The first link that names a port of the module, as it is noted at the first port of that name.
fn first_link(
    header: &Header<'_>,
    links: &[Link],
    joining: &Joining,
    place: usize,
    port: &Port,
) -> Option<usize>
    requires within { place < length header.now.module.now.ports }
    requires port { port.now ≡ slice_index_or header.now.module.now.ports place port.now }
    requires joining { IsJoining header.now.module.now links.now joining.now.named.items joining.now.placed.items }
    ensures { result ≡ position_from (names port.now.name) 0 links.now }
{
    match header.find(port.name.as_slice(), place) {
        Some(first) => joining.named[first],
        None => None,
    }
}

/// The first link that names a port of the module. What is noted at the port itself is it.
fn named_link(
    header: &Header<'_>,
    links: &[Link],
    joining: &Joining,
    place: usize,
    port: &Port,
) -> Option<usize>
    requires within { place < length header.now.module.now.ports }
    requires port { port.now ≡ slice_index_or header.now.module.now.ports place port.now }
    requires joining { IsJoining header.now.module.now links.now joining.now.named.items joining.now.placed.items }
    ensures { result ≡ position_from (names port.now.name) 0 links.now }
{
    match joining.named[place] {
        Some(number) => Some(number),
        None => first_link(header, links, joining, place, port),
    }
}

/// The link that joins a port of the module.
pub fn link_of(
    header: &Header<'_>,
    links: &[Link],
    joining: &Joining,
    place: usize,
    port: &Port,
) -> Option<usize>
    requires within { place < length header.now.module.now.ports }
    requires port { port.now ≡ slice_index_or header.now.module.now.ports place port.now }
    requires joining { IsJoining header.now.module.now links.now joining.now.named.items joining.now.placed.items }
    ensures { result ≡ link_from 0 port.now.name place links.now }
{
    let by_name = named_link(header, links, joining, place, port);
    let by_place = nth(joining.placed.as_slice(), place);
    earlier(by_name, by_place)
}
