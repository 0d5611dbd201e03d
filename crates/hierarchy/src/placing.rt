ghost use Rattle.std.specs.Prelude.{◌≡◌, ◌<◌, ◌++◌, ◌∷◌, [], map, length, All, Some, OnOk};
ghost use Rattle.module_nets.specs.Nets.{range_bits};
ghost use Rattle.module_nets.specs.Numbers.{range_width};
ghost use Rattle.module_nets.specs.Refusals.{IsMemory};
ghost use Rattle.elaborations.specs.Elaborations.{pins_at};
ghost use Rattle.hierarchy.specs.Placing.{steps_from, port_pin, port_pins, place_of_module, HasShortBit};

use bud_base::Text;
use bud_design::{Pin, Place};
use bud_syntax::{Module, Port, Range};
use module_nets::{ElabFault, printed, range_width};
use std::alloc::Global;

/// The number of the bit so many steps behind a range's left bound.
fn number_at(range: Range, steps: usize) -> u32
    requires { steps < range_width (Some range) }
    ensures { result ≡ steps_from range.left range.right steps }
{
    if range.left <= range.right {
        range.left + steps as u32
    } else {
        range.left - steps as u32
    }
}

/// Adds the pin of a bit of a port.
fn put_pin(
    alloc: Global,
    pins: &mut Vec<Pin>,
    place: u32,
    port: &Port,
    bit: Option<u32>,
) -> Result<(), ElabFault>
    requires short { All HasShortBit pins.old.items }
    ensures put { OnOk result (pins.new.items ≡ pins.old.items ++ port_pin place port.now bit ∷ []) }
    ensures short { OnOk result (All HasShortBit pins.new.items) }
    ensures memory { IsMemory result }
{
    let pin = Pin {
        place,
        port: printed(alloc, port.name.as_slice())?,
        bit,
        dir: port.dir,
    };
    match pins.push(pin) {
        Ok(()) => Ok(()),
        Err(_) => Err(ElabFault::NoMemory),
    }
}

/// Adds the pins of a vector, from its left bound on.
fn put_vector(
    alloc: Global,
    pins: &mut Vec<Pin>,
    place: u32,
    port: &Port,
    range: Range,
) -> Result<(), ElabFault>
    requires short { All HasShortBit pins.old.items }
    ensures put { OnOk result (pins.new.items ≡ pins.old.items ++ map (port_pin place port.now) (range_bits (Some range))) }
    ensures short { OnOk result (All HasShortBit pins.new.items) }
    ensures memory { IsMemory result }
{
    for steps in 0..range_width(Some(range)) {
        put_pin(alloc, pins, place, port, Some(number_at(range, steps)))?;
    }
    Ok(())
}

/// Adds the pins of a port.
fn put_port(alloc: Global, pins: &mut Vec<Pin>, place: u32, port: &Port) -> Result<(), ElabFault>
    requires short { All HasShortBit pins.old.items }
    ensures put { OnOk result (pins.new.items ≡ pins.old.items ++ port_pins place port.now) }
    ensures short { OnOk result (All HasShortBit pins.new.items) }
    ensures memory { IsMemory result }
{
    match port.range {
        None => put_pin(alloc, pins, place, port, None),
        Some(range) => put_vector(alloc, pins, place, port, range),
    }
}

/// Adds the pins of a place of a module, in port order.
pub fn put_pins(
    alloc: Global,
    pins: &mut Vec<Pin>,
    place: u32,
    module: &Module,
) -> Result<(), ElabFault>
    requires short { All HasShortBit pins.old.items }
    ensures put { OnOk result (pins.new.items ≡ pins.old.items ++ pins_at place «module».now) }
    ensures short { OnOk result (All HasShortBit pins.new.items) }
    ensures memory { IsMemory result }
{
    for port in module.ports.as_slice() {
        put_port(alloc, pins, place, port)?;
    }
    Ok(())
}

/// Adds a place of a module.
pub fn put_place(
    alloc: Global,
    places: &mut Vec<Place>,
    name: Text,
    module: &Module,
    parent: Option<u32>,
) -> Result<(), ElabFault>
    ensures put { OnOk result (places.new.items ≡ places.old.items ++ place_of_module name parent «module».now ∷ []) }
    ensures memory { IsMemory result }
{
    let place = Place {
        name,
        module: printed(alloc, module.name.as_slice())?,
        leaf: module.leaf,
        parent,
    };
    match places.push(place) {
        Ok(()) => Ok(()),
        Err(_) => Err(ElabFault::NoMemory),
    }
}
