ghost use Rattle.std.specs.Prelude.{◌≡◌, ◌+◌, ◌<◌, length, get_or, sum_by, IfOk};
ghost use Rattle.module_nets.specs.Headers.{port_called};
ghost use Rattle.module_nets.specs.Nets.{port_bits, range_bits};
ghost use Rattle.module_nets.specs.Numbers.{distance, range_width, capped};
ghost use Rattle.module_nets.specs.Refusals.{IsMemory};
ghost use Rattle.module_nets.specs.Tables.{known, IsNumbered};

use crate::faults::ElabFault;
use crate::tables::{Places, known_near, numbered};
use bud_syntax::{Module, Port, Range};
use std::alloc::Global;

/// The ports of a module by name.
#[derive(Drop)]
pub struct Header<'m> {
    pub module: &'m Module,
    places: Places<'m>,
    /// How many bits the ports have, or `usize::MAX` where they have more.
    pub bits: usize,
    ghost numbered: { IsNumbered (λ p. p.name) «module».now.ports (known places) },
    ghost counted: { bits ≡ capped (length (port_bits «module».now)) },
}

/// How far two numbers are apart.
#[inline]
pub fn distance(a: u32, b: u32) -> usize
    ensures { result ≡ distance a b }
{
    if a <= b {
        (b - a) as usize
    } else {
        (a - b) as usize
    }
}

/// How many bits a port or net of this range has.
#[inline]
pub fn range_width(range: Option<Range>) -> usize
    ensures { result ≡ range_width range }
{
    match range {
        None => 1,
        Some(range) => distance(range.left, range.right) + 1,
    }
}

/// How many bits the ports have, or `usize::MAX` where they have more.
fn port_width(ports: &[Port]) -> usize
    ensures { result ≡ capped (sum_by (λ p. range_width p.range) ports.now) }
{
    let mut bits: usize = 0;
    for port in ports {
        bits = bits.saturating_add(range_width(port.range));
    }
    bits
}

impl<'m> Header<'m> {
    pub fn new(alloc: Global, module: &'m Module) -> Result<Header<'m>, ElabFault>
        ensures module { IfOk result (λ header. header.module.now ≡ «module».now) }
        ensures memory { IsMemory result }
    {
        let ports = module.ports.as_slice();
        let places = numbered(alloc, ports)?;
        let bits = port_width(ports);
        Ok(Header {
            module,
            places,
            bits,
        })
    }

    /// The place of the first port of this name, which may well be at the place `near`.
    pub fn find(&self, port: &[u8], near: usize) -> Option<usize>
        ensures { result ≡ port_called self.now.module.now port.now }
    {
        known_near(&self.places, port, near)
    }

    /// The port at a place.
    pub fn port(&self, place: usize) -> &Port
        requires { place < length self.now.module.now.ports }
        ensures { result.now ≡ get_or self.now.module.now.ports place result.now }
    {
        &self.module.ports.as_slice()[place]
    }
}
