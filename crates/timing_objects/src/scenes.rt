ghost use Rattle.std.specs.Prelude.{◌≡◌, ◌==◌, ◌&&◌, ◌||◌, ◌<◌, length, filter, IfOk};
ghost use Rattle.bud_design.specs.Arcs.{is_clocked};
ghost use Rattle.std.specs.Option.{option_map};
ghost use Rattle.bud_design.specs.Designs.{is_input, is_output, named_ports, named_pins, named_cells, input_bits, output_bits};
ghost use Rattle.bud_design.specs.Names.{meaning};
ghost use Rattle.bud_design.specs.TimingRules.{IsSoundTiming};
ghost use Rattle.timing_objects.specs.Objects.{is_input_bit, is_output_bit, is_source_pin, is_checked, is_register_place, pin_may_be, is_meant_by_cell, pins_of_cell};
ghost use Rattle.timing_objects.specs.PortNames.{numbers};

use crate::orders::{has_check, has_edge, span_of};
use crate::port_names::bits_of;
use crate::port_tables::{PortTable, find_port, port_table};
use crate::things::Role;
use bud_base::PinId;
use bud_design::{PinList, Timing};
use bud_syntax::Dir;
use flat_design::Flat;
use std::alloc::{AllocError, Global};
use std::marker::Model;

/// A flat design and its timing, with the names of its ports at hand.
#[derive(Drop)]
pub struct Scene<'a> {
    flat: &'a Flat,
    timing: &'a Timing,
    ports: PortTable,
}

impl<'a> Model for Scene<'a> {
    ghost use Rattle.bud_design.specs.TimingRules.{IsSoundTiming};
    ghost use Rattle.timing_objects.specs.Objects.{Subject};
    ghost use Rattle.timing_objects.specs.PortTables.{IsPortTable};

    ghost Value = { Subject };

    ghost view = { λ s. record { design = s.flat.now; root = 0; timing = s.timing.now } };

    ghost invariant = { λ s. IsSoundTiming s.flat.now s.timing.now × IsPortTable s.flat.now.pins s.ports };
}

impl<'a> Scene<'a> {
    /// The whole design with its timing.
    pub fn new(alloc: Global, flat: &'a Flat, timing: &'a Timing) -> Result<Scene<'a>, AllocError>
        requires { IsSoundTiming flat.now timing.now }
        ensures { IfOk result (λ scene. scene ≡ record { design = flat.now; root = 0; timing = timing.now }) }
    {
        let ports = port_table(alloc, flat.pins())?;
        Ok(Scene {
            flat,
            timing,
            ports,
        })
    }
}

fn is_input(dir: Dir) -> bool
    ensures { result ≡ is_input dir }
{
    matches!(dir, Dir::Input)
}

fn is_output(dir: Dir) -> bool
    ensures { result ≡ is_output dir }
{
    matches!(dir, Dir::Output)
}

impl<'a> Scene<'a> {
    /// The port bits that a name means.
    pub(crate) fn port(&self, name: &[u8]) -> Option<&[PinId]>
        ensures { option_map (λ bits. numbers bits.now) result ≡ meaning (named_ports self.now.design self.now.root) name.now }
    {
        find_port(&self.ports, name)
    }

    /// The pin that a name means.
    pub(crate) fn pin(&self, name: &[u8]) -> Option<PinId>
        ensures { option_map (λ pin. pin.0) result ≡ meaning (named_pins self.now.design self.now.root) name.now }
    {
        self.flat.find_pin(name)
    }

    /// The instance that a name means.
    pub(crate) fn cell(&self, name: &[u8]) -> Option<u32>
        ensures { result ≡ meaning (named_cells self.now.design self.now.root) name.now }
    {
        self.flat.find_place(name)
    }

    /// The bits of the top's input ports.
    pub(crate) fn inputs(&self, alloc: Global) -> Result<PinList, AllocError>
        ensures { IfOk result (λ bits. numbers bits ≡ input_bits self.now.design self.now.root) }
    {
        let pins = self.flat.pins();
        let bits = bits_of(alloc, pins, 0)?;
        let mut inputs = Vec::new(alloc);
        for bit in bits.as_slice() {
            if is_input(pins[bit.0 as usize].dir) {
                inputs.push(*bit)?;
            }
        }
        Ok(PinList::from_vec(inputs))
    }

    /// The bits of the top's output ports.
    pub(crate) fn outputs(&self, alloc: Global) -> Result<PinList, AllocError>
        ensures { IfOk result (λ bits. numbers bits ≡ output_bits self.now.design self.now.root) }
    {
        let pins = self.flat.pins();
        let bits = bits_of(alloc, pins, 0)?;
        let mut outputs = Vec::new(alloc);
        for bit in bits.as_slice() {
            if is_output(pins[bit.0 as usize].dir) {
                outputs.push(*bit)?;
            }
        }
        Ok(PinList::from_vec(outputs))
    }

    /// Whether the pin is a bit of an input port of the top.
    fn is_input_bit(&self, pin: PinId) -> bool
        requires { pin.0 < length self.now.design.pins }
        ensures { result ≡ is_input_bit self.now pin.0 }
    {
        let pin = &self.flat.pins()[pin.0 as usize];
        pin.place == 0 && is_input(pin.dir)
    }

    /// Whether the pin is a bit of an output port of the top.
    fn is_output_bit(&self, pin: PinId) -> bool
        requires { pin.0 < length self.now.design.pins }
        ensures { result ≡ is_output_bit self.now pin.0 }
    {
        let pin = &self.flat.pins()[pin.0 as usize];
        pin.place == 0 && is_output(pin.dir)
    }

    /// Whether the pin is a bit of an input port of the top or an output of a leaf.
    fn is_source_pin(&self, pin: PinId) -> bool
        requires { pin.0 < length self.now.design.pins }
        ensures { result ≡ is_source_pin self.now pin.0 }
    {
        if self.is_input_bit(pin) {
            return true;
        }
        let pin = &self.flat.pins()[pin.0 as usize];
        self.flat.places()[pin.place as usize].leaf && is_output(pin.dir)
    }

    /// Whether the pin is a clock pin.
    fn is_clocked(&self, pin: PinId) -> bool
        ensures { result ≡ is_clocked self.now.timing pin.0 }
    {
        has_edge(self.timing.edges.as_slice(), pin)
    }

    /// Whether the pin is checked.
    fn is_checked(&self, pin: PinId) -> bool
        ensures { result ≡ is_checked self.now.timing pin.0 }
    {
        has_check(self.timing.checks.as_slice(), pin)
    }

    /// Whether the instance is a register.
    pub(crate) fn is_register(&self, place: u32) -> bool
        ensures { result ≡ is_register_place self.now place }
    {
        let pins = self.flat.pins();
        let span = span_of(pins, place);
        for number in span.start..span.end {
            if self.is_clocked(PinId(number as u32)) {
                return true;
            }
        }
        false
    }

    /// Whether the pin may be named so.
    pub(crate) fn pin_may_be(&self, role: Role, pin: PinId) -> bool
        requires { pin.0 < length self.now.design.pins }
        ensures { result ≡ pin_may_be self.now role pin.0 }
    {
        match role {
            Role::Source => self.is_source_pin(pin),
            Role::Input => self.is_input_bit(pin),
            Role::Output => self.is_output_bit(pin),
            Role::Start => self.is_input_bit(pin) || self.is_clocked(pin),
            Role::End => self.is_output_bit(pin) || self.is_checked(pin),
            Role::Through => true,
        }
    }

    /// Whether a cell that is named so stands for this pin of its own.
    fn is_meant_by_cell(&self, role: Role, pin: PinId) -> bool
        ensures { result ≡ is_meant_by_cell self.now role pin.0 }
    {
        match role {
            Role::Start => self.is_clocked(pin),
            Role::End => self.is_checked(pin),
            Role::Source | Role::Input | Role::Output | Role::Through => false,
        }
    }

    /// The pins that a cell stands for that is named so.
    pub(crate) fn pins_of_cell(
        &self,
        alloc: Global,
        role: Role,
        place: u32,
    ) -> Result<PinList, AllocError>
        ensures { IfOk result (λ pins. numbers pins ≡ pins_of_cell self.now role place) }
    {
        let bits = bits_of(alloc, self.flat.pins(), place)?;
        let mut pins = Vec::new(alloc);
        for bit in bits.as_slice() {
            if self.is_meant_by_cell(role, *bit) {
                pins.push(*bit)?;
            }
        }
        Ok(PinList::from_vec(pins))
    }
}
