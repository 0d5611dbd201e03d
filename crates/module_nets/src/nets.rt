ghost use Rattle.std.specs.Prelude.{◌≡◌, ◌+◌, ◌<◌, ◌≤◌, get_or, ℕ, List, Some, None, length, map, IfOk};
ghost use Rattle.std.specs.Option.{option_map};
ghost use Rattle.module_nets.specs.Entering.{bad_select};
ghost use Rattle.module_nets.specs.Gathering.{place_among};
ghost use Rattle.module_nets.specs.NetTables.{IsBitAt, IsOfNet, IsNetOf, IsNetSpan, IsSpanOf};
ghost use Rattle.module_nets.specs.Nets.{all_bits, bit_of, local_bits, range_bits, range_of, piece_net};
ghost use Rattle.module_nets.specs.Numbers.{IsNamedApart, capped, module_nets, place_in, range_width};
ghost use Rattle.module_nets.specs.Refusals.{IsMemory};
ghost use Rattle.module_nets.specs.Tables.{known};

use crate::faults::ElabFault;
use crate::gathering::{Gathered, NetPlace};
use crate::guesses::Guesses;
use crate::headers::{distance, range_width};
use crate::keys::Key;
use crate::tables::known_near;
use bud_syntax::{Module, Piece, Range};
use indexmap::IndexMap;
use std::alloc::Global;

/// The numbers of neighbouring net bits from the first to the last, rising or falling.
#[derive(Clone, Copy, Debug, PartialEq, Eq)]
pub struct Span {
    pub first: usize,
    pub last: usize,
}

/// The nets of a module by name, with the numbers of their bits: the places at which they stand among all net bits.
#[derive(Drop)]
pub struct NetTable<'m> {
    pub module: &'m Module,
    places: IndexMap<Key<'m>, NetPlace>,
    names: Vec<&'m [u8]>,
    /// How many net bits the module has, or `usize::MAX` where it has more.
    pub bits: usize,
    /// How many of them are no bits of ports, or `usize::MAX` where they are more.
    pub local: usize,
    guesses: Guesses,
    ghost apart: { IsNamedApart «module».now },
    ghost placed: { (q : List ℕ) → known places q ≡ place_among 0 (module_nets «module».now) q },
    ghost named: { map (λ n. n.now) names.items ≡ map (λ n. n.name) (module_nets «module».now) },
    ghost all: { bits ≡ capped (length (all_bits «module».now)) },
    ghost counted: { local ≡ capped (length (local_bits «module».now)) },
}

/// The net bit of a number in a net that stands at a place.
#[inline]
fn number_in(place: NetPlace, number: u32) -> usize
    ensures { result ≡ capped (place.first + place_in place.range (Some number)) }
{
    match place.range {
        None => place.first,
        Some(range) => place.first.saturating_add(distance(range.left, number)),
    }
}

/// How many nets the module may well have: its ports, and as many as it declares or as it has instances.
fn likely_nets(module: &Module) -> usize {
    module
        .ports
        .len()
        .saturating_add(module.nets.len().max(module.instances.len()))
}

impl<'m> NetTable<'m> {
    /// The table of a module that declares no name twice.
    pub fn new(alloc: Global, module: &'m Module) -> Result<NetTable<'m>, ElabFault>
        requires { IsNamedApart «module».now }
        ensures module { IfOk result (λ table. table.module.now ≡ «module».now) }
        ensures memory { IsMemory result }
    {
        let mut nets = Gathered::new(alloc, likely_nets(module))?;
        nets.put_ports(module.ports.as_slice())?;
        nets.put_nets(module.nets.as_slice())?;
        nets.put_uses(module.instances.as_slice())?;
        nets.put_uses(module.assigns.as_slice())?;
        let Gathered {
            places,
            names,
            bits,
            local,
            guesses,
        } = nets;
        Ok(NetTable {
            module,
            places,
            names,
            bits,
            local,
            guesses,
        })
    }

    /// The number of the first piece of a link of an instance, by which its nets are found sooner.
    #[inline]
    pub fn piece(&self, instance: usize, link: usize) -> usize {
        self.guesses.piece(instance, link)
    }

    /// Where a net's bits stand. Where the piece of this number is of that net, its name isn't looked up.
    #[inline]
    fn find(&self, name: &[u8], piece: usize) -> Option<NetPlace>
        ensures { result ≡ place_among 0 (module_nets self.now.module.now) name.now }
    {
        known_near(&self.places, name, self.guesses.net(piece))
    }

    /// The range of a net, which the piece of this number may be of; an undeclared net is a scalar.
    pub fn range_of(&self, name: &[u8], piece: usize) -> Option<Range>
        ensures { result ≡ range_of self.now.module.now name.now }
    {
        self.find(name, piece)?.range
    }

    /// The numbers of all bits of a net, which the piece of this number may be of.
    fn net_span(&self, name: &[u8], piece: usize) -> Option<Span>
        requires small { self.now.bits ≤ 8388608 }
        requires used { IsNetOf self.now.module.now name.now }
        ensures { IsNetSpan self.now.module.now name.now result }
    {
        let place = self.find(name, piece)?;
        let last = match place.range {
            None => place.first,
            Some(range) => number_in(place, range.right),
        };
        Some(Span {
            first: place.first,
            last,
        })
    }

    /// The numbers of the bits of a piece of the module, the leftmost first; None for a constant. Its own number, where it is known, spares
    /// the look-up of its net's name.
    pub fn span(&self, piece: &Piece, number: usize) -> Option<Span>
        requires small { self.now.bits ≤ 8388608 }
        requires used { IsOfNet self.now.module.now (piece_net piece.now) }
        requires select { bad_select self.now.module.now piece.now ≡ None }
        ensures { IsSpanOf self.now.module.now piece.now result }
    {
        match piece {
            Piece::Const(_) => None,
            Piece::Net(name) => self.net_span(name.as_slice(), number),
            Piece::Bit(name, bit) => {
                let first = number_in(self.find(name.as_slice(), number)?, *bit);
                Some(Span { first, last: first })
            }
            Piece::Part(name, left, right) => {
                let place = self.find(name.as_slice(), number)?;
                Some(Span {
                    first: number_in(place, *left),
                    last: number_in(place, *right),
                })
            }
        }
    }

    /// The net bit of a number: its net's name, and its own number in the net, None for a scalar's. It looks through all nets.
    pub fn bit_at(&self, number: usize) -> Option<(&'m [u8], Option<u32>)>
        requires { number < length (all_bits self.now.module.now) }
        ensures { IsBitAt self.now.module.now number (option_map (λ b. bit_of b.0.now b.1) result) }
    {
        let mut before: usize = 0;
        for name in self.names.as_slice() {
            let range = self.range_of(name, usize::MAX);
            let width = range_width(range);
            if number - before < width {
                return Some((*name, bit_in(range, number - before)));
            }
            before += width;
        }
        None
    }
}

/// The number of a bit of a net, the bit on the left being at place 0.
fn bit_in(range: Option<Range>, place: usize) -> Option<u32>
    requires { place < range_width range }
    ensures { result ≡ get_or (range_bits range) place None }
{
    match range {
        None => None,
        Some(range) => {
            if range.left <= range.right {
                Some(range.left + place as u32)
            } else {
                Some(range.left - place as u32)
            }
        }
    }
}
