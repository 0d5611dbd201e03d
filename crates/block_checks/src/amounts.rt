ghost use Rattle.std.specs.Prelude.{◌≡◌, IfSome};
ghost use Rattle.bud_flow.specs.Sums.{number_at};
ghost use Rattle.block_theory.specs.BlockFiles.{input_amount, output_amount};
ghost use Rattle.block_theory.specs.BlockPorts.{node_class, class_clock};

use bud_design::{Clock, Constraints, Layered};

/// The clock of a node's class, where the layering and the constraints have them.
fn clock_of<'a>(all: &'a Constraints, layered: &Layered, node: u32) -> Option<&'a Clock>
    ensures { IfSome result (λ clock. clock.now ≡ class_clock all.now layered.now (node_class layered.now node)) }
{
    let node = layered.nodes.as_slice().get(node as usize)?;
    let class = layered.classes.as_slice().get(node.class.0 as usize)?;
    all.clocks.as_slice().get(class.clock as usize)
}

/// The input delay that an arrival gives at a node, where the node has one.
pub fn delay_in(times: &[i64], node: u32) -> Option<i64>
    ensures { IfSome result (λ amount. amount ≡ input_amount times.now node) }
{
    match times.get(node as usize) {
        Some(time) => Some(*time),
        None => None,
    }
}

/// The output delay: what is left of the period.
pub fn delay_out(all: &Constraints, layered: &Layered, times: &[i64], node: u32) -> Option<i64>
    ensures { IfSome result (λ amount. amount ≡ output_amount all.now layered.now times.now node) }
{
    let clock = clock_of(all, layered, node)?;
    let time = times.get(node as usize)?;
    clock.period.checked_sub(*time)
}
