ghost use Rattle.std.specs.Prelude.{◌≡◌, ◌<◌, ◌++◌, [], length, IfOk, OnOk, if◌then◌else◌};
ghost use Rattle.block_theory.specs.BlockPorts.{nodes_at};
ghost use Rattle.port_nodes.specs.NodeChains.{pins_of_nodes, AreNodeChains};

use bud_base::PinId;
use bud_design::{LayerNode, Layered};
use name_tables::Chains;
use std::alloc::{AllocError, Global};

/// The pins of nodes, in order of the nodes.
fn pins_of(alloc: Global, nodes: &[LayerNode]) -> Result<Vec<u32>, AllocError>
    ensures { IfOk result (λ pins. pins.items ≡ pins_of_nodes nodes.now) }
{
    let mut pins = Vec::with_capacity(alloc, nodes.len())?;
    for node in nodes {
        pins.push(node.pin.0)?;
    }
    Ok(pins)
}

/// The nodes of a layering, chained by their pins.
pub fn node_chains(alloc: Global, layered: &Layered) -> Result<Chains, AllocError>
    requires few { length layered.now.nodes < 2147483648 }
    ensures { IfOk result (AreNodeChains layered.now.nodes) }
{
    let pins = pins_of(alloc, layered.nodes.as_slice())?;
    Chains::of(alloc, 0, &pins)
}

/// Puts the nodes at a pin behind others, by number.
fn put_nodes(
    out: &mut Vec<u32>,
    layered: &Layered,
    chains: &Chains,
    pin: PinId,
) -> Result<(), AllocError>
    requires { AreNodeChains layered.now.nodes chains.now }
    ensures { OnOk result (out.new.items ≡ out.old.items ++ nodes_at layered.now pin.0) }
{
    let count = layered.nodes.len();
    let mut node = chains.first(pin.0);
    while (node as usize) < count {
        out.push(node)?;
        node = chains.next(node);
    }
    Ok(())
}

/// Puts them there where they are wanted.
pub fn put_if(
    out: &mut Vec<u32>,
    layered: &Layered,
    chains: &Chains,
    pin: PinId,
    wanted: bool,
) -> Result<(), AllocError>
    requires { AreNodeChains layered.now.nodes chains.now }
    ensures { OnOk result (out.new.items ≡ out.old.items ++ (if wanted then nodes_at layered.now pin.0 else [])) }
{
    if wanted {
        put_nodes(out, layered, chains, pin)
    } else {
        Ok(())
    }
}
