ghost use Rattle.module_nets.specs.Refusals.{IsMemory};

use crate::faults::ElabFault;
use std::alloc::Global;

/// Guesses at the numbers of the nets of pieces in their table. A guess is tried before a name is looked up, and where it is wrong the
/// name is looked up: no answer depends on what stands here.
#[derive(Drop)]
pub struct Guesses {
    /// For each piece, in the order of instances, links and assigns.
    pieces: Vec<u32>,
    /// How many pieces stand before each link.
    links: Vec<u32>,
    /// How many links stand before each instance.
    instances: Vec<u32>,
}

/// The number at a place of a list, or one that is no number of a piece.
#[inline]
fn number_at(numbers: &[u32], place: usize) -> usize {
    if place < numbers.len() {
        numbers[place] as usize
    } else {
        usize::MAX
    }
}

/// A number as it is kept; one past 32 bits is kept as one of no net.
#[inline]
pub fn kept(number: usize) -> u32 {
    match u32::try_from(number) {
        Ok(kept) => kept,
        Err(_) => u32::MAX,
    }
}

/// Appends a number.
#[inline]
fn put(numbers: &mut Vec<u32>, number: usize) -> Result<(), ElabFault>
    ensures { IsMemory result }
{
    match numbers.push(kept(number)) {
        Ok(()) => Ok(()),
        Err(_) => Err(ElabFault::NoMemory),
    }
}

impl Guesses {
    pub fn new(alloc: Global) -> Guesses {
        Guesses {
            pieces: Vec::new(alloc),
            links: Vec::new(alloc),
            instances: Vec::new(alloc),
        }
    }

    /// Begins an instance.
    pub fn put_instance(&mut self) -> Result<(), ElabFault>
        ensures { IsMemory result }
    {
        put(&mut self.instances, self.links.len())
    }

    /// Begins a link.
    pub fn put_link(&mut self) -> Result<(), ElabFault>
        ensures { IsMemory result }
    {
        put(&mut self.links, self.pieces.len())
    }

    /// Adds the number of a piece's net.
    pub fn put_piece(&mut self, net: usize) -> Result<(), ElabFault>
        ensures { IsMemory result }
    {
        put(&mut self.pieces, net)
    }

    /// The number of the first piece of a link of an instance.
    #[inline]
    pub fn piece(&self, instance: usize, link: usize) -> usize {
        let first = number_at(self.instances.as_slice(), instance);
        number_at(self.links.as_slice(), first.saturating_add(link))
    }

    /// The guess at the net of the piece of a number.
    #[inline]
    pub fn net(&self, piece: usize) -> usize {
        number_at(self.pieces.as_slice(), piece)
    }
}
