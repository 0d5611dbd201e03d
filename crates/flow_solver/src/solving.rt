ghost use Rattle.std.specs.Prelude.{◌≡◌, ℕ, ◌+◌, ◌<◌, ◌<ℤ◌, ◌≤ℤ◌, pos, false, length, OnOk, OnErr};
ghost use Rattle.bud_base.specs.Soundness.{IsSound};
ghost use Rattle.residual.specs.Networks.{Fits, IsFresh, IsLawful, excess_at};
ghost use Rattle.residual.specs.Balances.{HasRoom, HasNoExcess, IsSettled, surplus, total_start_flow, total_weight};
ghost use Rattle.flow_solver.specs.Pushes.{IsAugmented};
ghost use Rattle.flow_solver.specs.Rounds.{HasSlack, AreRounds};

use crate::pushes::{amount_along, push_along, raise};
use crate::searches::{begin, has_excess, node_with_excess, search};
use bud_base::{NodeId, Problem, Steps};
use residual::Net;
use search_heap::Search;
use std::alloc::{AllocError, Global};
use std::sync::ledger::Ledger;

/// Settles excess of a node: searches from there for one that lacks flow, and pushes along the way.
fn augment<L: Ledger>(
    net: &mut Net,
    problem: &Problem,
    node: NodeId,
    front: &mut Search,
    steps: &mut Steps<L>,
)
    requires sound { IsSound problem.now }
    requires fits { Fits net.old problem.now }
    requires lawful { IsLawful net.old }
    requires closed { net.old.is_open ≡ false }
    requires room { HasRoom net.old }
    requires node { node.0 < net.old.nodes + 1 }
    requires excess { pos 0 <ℤ excess_at net.old node.0 }
    requires size { length front.old.entries ≡ net.old.nodes + 1 }
    ensures augmented { IsAugmented net.old net.new }
    ensures size { length front.new.entries ≡ net.old.nodes + 1 }
{
    begin(front, node);
    let found = search(net, problem, front, steps);
    raise(net, problem.nodes, front, found.distance);
    let amount = amount_along(net, front, found.node, steps);
    push_along(net, front, found.node, amount, steps);
}

/// Settles all excess of a node.
fn settle_node<L: Ledger>(
    net: &mut Net,
    problem: &Problem,
    node: NodeId,
    front: &mut Search,
    steps: &mut Steps<L>,
)
    requires sound { IsSound problem.now }
    requires fits { Fits net.old problem.now }
    requires closed { net.old.is_open ≡ false }
    requires slack { IsLawful net.old → HasSlack net.old }
    requires node { node.0 < net.old.nodes + 1 }
    requires size { length front.old.entries ≡ net.old.nodes + 1 }
    ensures rounds { AreRounds net.old net.new }
    ensures lawful { IsLawful net.new }
    ensures size { length front.new.entries ≡ net.old.nodes + 1 }
    ensures less { pos 0 <ℤ excess_at net.old node.0 → surplus net.new <ℤ surplus net.old }
{
    'units: while has_excess(net, node) {
        augment(net, problem, node, front, steps);
    }
}

/// Settles all excess of each node but the root, one after another.
fn settle_nodes<L: Ledger>(
    net: &mut Net,
    problem: &Problem,
    front: &mut Search,
    steps: &mut Steps<L>,
)
    requires sound { IsSound problem.now }
    requires fits { Fits net.old problem.now }
    requires closed { net.old.is_open ≡ false }
    requires slack { IsLawful net.old → HasSlack net.old }
    requires size { length front.old.entries ≡ net.old.nodes + 1 }
    ensures rounds { AreRounds net.old net.new }
    ensures size { length front.new.entries ≡ net.old.nodes + 1 }
{
    for node in 0..problem.nodes {
        settle_node(net, problem, NodeId(node), front, steps);
    }
}

/// Settles all excess.
fn settle<L: Ledger>(net: &mut Net, problem: &Problem, front: &mut Search, steps: &mut Steps<L>)
    requires sound { IsSound problem.now }
    requires fits { Fits net.old problem.now }
    requires closed { net.old.is_open ≡ false }
    requires slack { IsLawful net.old → HasSlack net.old }
    requires size { length front.old.entries ≡ net.old.nodes + 1 }
    ensures rounds { AreRounds net.old net.new }
    ensures lawful { IsLawful net.new }
    ensures balanced { HasNoExcess net.new }
{
    'rounds: while let Some(node) = node_with_excess(net, problem.nodes) {
        settle_node(net, problem, node, front, steps);
        settle_nodes(net, problem, front, steps);
    }
}

/// Settles all excess of a problem's network as it was made, and takes off the surpluses. A step is a look at a residual arc.
///
/// All memory is taken first: for want of it nothing changes.
pub fn solve<L: Ledger>(
    alloc: Global,
    net: &mut Net,
    problem: &Problem,
    steps: &mut Steps<L>,
) -> Result<(), AllocError>
    requires sound { IsSound problem.now }
    requires fits { Fits net.old problem.now }
    requires fresh { IsFresh problem.now net.old }
    ensures settled { OnOk result (IsSettled net.new) }
    ensures starts { OnOk result (total_start_flow net.new ≤ℤ total_weight problem.now) }
    ensures lawful { OnOk result (IsLawful net.new) }
    ensures fits { Fits net.new problem.now }
    ensures same { OnErr result (net.new ≡ net.old) }
    ensures steps { OnErr result (steps.new ≡ steps.old) }
{
    let mut front = Search::new(alloc, problem.nodes as usize + 1)?;
    settle(net, problem, &mut front, steps);
    net.trim();
    Ok(())
}
