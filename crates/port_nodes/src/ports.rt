ghost use Rattle.std.specs.Prelude.{◌≡◌, ◌==◌, ◌&&◌, ◌<◌, length, IfOk};
ghost use Rattle.bud_design.specs.Designs.{is_input, is_output};
ghost use Rattle.block_theory.specs.BlockPorts.{input_nodes as nodes_of_inputs, output_nodes as nodes_of_outputs};
ghost use Rattle.port_nodes.specs.NodeChains.{AreNodeChains};

use crate::nodes::put_if;
use bud_base::PinId;
use bud_design::{Layered, Pin};
use bud_syntax::Dir;
use flat_design::Flat;
use name_tables::Chains;
use std::alloc::{AllocError, Global};

/// Whether a pin is an input bit of a block.
fn is_input_bit(pin: &Pin, block: u32) -> bool
    ensures { result ≡ (pin.now.place == block && is_input pin.now.dir) }
{
    pin.place == block && matches!(pin.dir, Dir::Input)
}

/// Whether a pin is an output bit of a block.
fn is_output_bit(pin: &Pin, block: u32) -> bool
    ensures { result ≡ (pin.now.place == block && is_output pin.now.dir) }
{
    pin.place == block && matches!(pin.dir, Dir::Output)
}

/// The nodes at the input bits of a block, by bit and then class.
pub fn input_nodes(
    alloc: Global,
    flat: &Flat,
    layered: &Layered,
    chains: &Chains,
    block: u32,
) -> Result<Vec<u32>, AllocError>
    requires { AreNodeChains layered.now.nodes chains.now }
    ensures { IfOk result (λ nodes. nodes.items ≡ nodes_of_inputs flat.now layered.now block) }
{
    let mut out = Vec::new(alloc);
    let pins = flat.pins();
    for number in 0..flat.pin_count() {
        let wanted = is_input_bit(&pins[number as usize], block);
        put_if(&mut out, layered, chains, PinId(number), wanted)?;
    }
    Ok(out)
}

/// The nodes at its output bits.
pub fn output_nodes(
    alloc: Global,
    flat: &Flat,
    layered: &Layered,
    chains: &Chains,
    block: u32,
) -> Result<Vec<u32>, AllocError>
    requires { AreNodeChains layered.now.nodes chains.now }
    ensures { IfOk result (λ nodes. nodes.items ≡ nodes_of_outputs flat.now layered.now block) }
{
    let mut out = Vec::new(alloc);
    let pins = flat.pins();
    for number in 0..flat.pin_count() {
        let wanted = is_output_bit(&pins[number as usize], block);
        put_if(&mut out, layered, chains, PinId(number), wanted)?;
    }
    Ok(out)
}
