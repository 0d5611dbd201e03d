//! A worked example from its definitions, what fits it, and surpluses that are taken off.
ghost use Rattle.std.specs.Prelude.{◌≡◌, ◌+◌, ◌*◌, ◌<◌, ◌≤ℤ◌, pos, false, length, IsTrue, IfOk};
ghost use Rattle.bud_base.specs.Paths.{Meets};
ghost use Rattle.residual.specs.Arcs.{reduced_cost};
ghost use Rattle.residual.specs.Bounds.{IsSmall};
ghost use Rattle.residual.specs.Balances.{HasNoExcess, HasRoom};
ghost use Rattle.residual.specs.Excesses.{flows_after};
ghost use Rattle.residual.specs.Networks.{Fits, IsKey};

use crate::arcs::FULL;
use crate::{Look, Net};
use bud_base::{End, Item, ItemId, Listed, NodeId, Problem, Start, Steps};
use std::alloc::{AllocError, Global};
use std::marker::Brand;
use std::process::Abort;
use std::sync::ledger::{Blank, Ledger};
use std::test::Fail;

/// Two items in a row that take at least 40 and 30 ps, of these weights, and the time at which paths must end.
fn row(alloc: Global, nodes: u32, weights: (u32, u32), require: i64) -> Result<Problem, AllocError>
    requires { pos 70 ≤ℤ require }
    ensures meets { IfOk result Meets }
    ensures nodes { IfOk result (λ p. p.nodes ≡ nodes) }
    ensures items { IfOk result (λ p. length p.items ≡ 2) }
    ensures starts { IfOk result (λ p. length p.starts ≡ 1) }
    ensures ends { IfOk result (λ p. length p.ends ≡ 1) }
{
    let first = Item {
        from: NodeId(0),
        to: NodeId(1),
        least: 40,
        greatest: 100,
        weight: weights.0,
    };
    let second = Item {
        from: NodeId(1),
        to: NodeId(2),
        least: 30,
        greatest: 90,
        weight: weights.1,
    };
    let start = Start {
        node: NodeId(0),
        offset: 0,
    };
    let end = End {
        node: NodeId(2),
        require,
    };
    Ok(Problem {
        nodes,
        items: Listed::from_vec(vec![in alloc; first, second]?),
        starts: Listed::from_vec(vec![in alloc; start]?),
        ends: Listed::from_vec(vec![in alloc; end]?),
    })
}

/// The network of a row.
fn net_of(rt: &impl Abort, alloc: Global, problem: &Problem) -> Result<Net, AllocError>
    requires meets { Meets problem.now }
    requires items { length problem.now.items ≡ 2 }
    requires starts { length problem.now.starts ≡ 1 }
    requires ends { length problem.now.ends ≡ 1 }
    ensures fits { IfOk result (λ net. Fits net problem.now) }
    ensures closed { IfOk result (λ net. net.is_open ≡ false) }
    ensures arcs { IfOk result (λ net. length net.arcs ≡ 6) }
{
    match problem.check() {
        Ok(()) => {}
        Err(_) => panic!(rt; "the row is sound"),
    }
    Net::new(alloc, problem)
}

#[test]
fn a_new_network(rt: HostRuntime) -> Result<(), Fail> {
    let alloc = rt.alloc();
    let problem = row(alloc, 3, (3, 2), 150)?;
    let net = net_of(&rt, alloc, &problem)?;
    for (node, potential, excess) in [(0, 0, -3), (1, 80, 1), (2, 150, 2), (3, 0, 0)] {
        assert_eq!(rt; net.potential(NodeId(node)), potential, "at {node}");
        assert_eq!(rt; net.excess(NodeId(node)), excess, "at {node}");
    }
    assert_eq!(rt; net.item_flow(ItemId(0)), 3);
    assert_eq!(rt; net.item_flow(ItemId(1)), 2);
    assert_eq!(rt; net.start_flow(0), 0);
    assert_eq!(rt; net.end_flow(0), 0);
    for (nodes, weights, require, is_same) in [
        (3, (3, 2), 150, true),
        (4, (3, 2), 150, false),
        (3, (2, 2), 150, false),
        (3, (3, 3), 150, false),
        (3, (3, 2), 149, false),
    ] {
        let other = row(alloc, nodes, weights, require)?;
        assert_eq!(rt; net.fits(&other), is_same, "at {nodes} and {require}");
    }
    Ok(())
}

/// Whether a residual arc has reduced cost 0.
fn is_tight(net: &Net, look: Look) -> bool
    requires from { look.from.0 < net.now.nodes + 1 }
    requires to { look.to.0 < net.now.nodes + 1 }
    requires cost { IsSmall look.cost }
    ensures { IsTrue result → reduced_cost net.now.potentials look ≡ pos 0 }
{
    look.cost + (net.potential(look.to) - net.potential(look.from)) == 0
}

/// Pushes an amount over a residual arc, which must be tight and have room for it.
fn push<L: Ledger>(rt: &impl Abort, net: &mut Net, steps: &mut Steps<L>, arc: usize, amount: i128)
    requires key { IsKey net.old arc }
    requires closed { net.old.is_open ≡ false }
    requires least { pos 0 ≤ℤ amount }
    ensures pushed { net.new ≡ record net.old { flows = flows_after net.old.flows arc amount; kept = net.old.potentials; is_open = false } }
{
    let look = net.look(arc, steps);
    assert!(rt; is_tight(net, look), "at {arc}");
    assert!(rt; amount <= look.room, "at {arc}");
    net.push(arc, amount);
}

/// Whether no node, nor the root, has or lacks flow.
fn is_balanced(net: &Net, root: u32) -> bool
    requires root { net.now.nodes ≡ root }
    requires small { root < 10 }
    ensures { IsTrue result → HasNoExcess net.now }
{
    for node in 0..root + 1 {
        if net.excess(NodeId(node)) != 0 {
            return false;
        }
    }
    true
}

/// Whether each arc, as its reverse tells, carries less than makes an arc without limit full.
fn has_room<L: Ledger>(net: &Net, steps: &mut Steps<L>, arcs: usize) -> bool
    requires arcs { length net.now.arcs ≡ arcs }
    requires small { arcs < 10 }
    ensures { IsTrue result → HasRoom net.now }
{
    for arc in 0..arcs {
        if net.look(2 * arc + 1, steps).room >= FULL {
            return false;
        }
    }
    true
}

/// Pushes flow from the root along the row and back to it, over its arcs without limit, and takes it off again.
fn pushed_and_trimmed<L: Ledger>(
    rt: &impl Abort,
    alloc: Global,
    blank: Blank,
) -> Result<(), AllocError>
    requires name { blank.name ≡ L.name }
    requires parts { blank.parts ≡ L.parts }
    requires some { 0 < blank.parts }
{
    let mut steps = Steps::<L>::new(blank);
    let problem = row(alloc, 3, (0, 0), 70)?;
    let mut net = net_of(rt, alloc, &problem)?;
    push(rt, &mut net, &mut steps, 8, 5);
    push(rt, &mut net, &mut steps, 4, 5);
    push(rt, &mut net, &mut steps, 6, 5);
    push(rt, &mut net, &mut steps, 10, 5);
    assert_eq!(rt; net.start_flow(0), 5);
    assert!(rt; is_balanced(&net, 3));
    assert!(rt; has_room(&net, &mut steps, 6));
    net.trim();
    assert_eq!(rt; net.start_flow(0), 0);
    assert_eq!(rt; net.item_flow(ItemId(0)), 0);
    assert_eq!(rt; net.item_flow(ItemId(1)), 0);
    assert_eq!(rt; net.end_flow(0), 0);
    assert_eq!(rt; net.potential(NodeId(2)), 70);
    Ok(())
}

#[test]
fn a_surplus_is_taken_off(rt: HostRuntime) -> Result<(), Fail> {
    pushed_and_trimmed::<Brand>(&rt, rt.alloc(), Blank::new(1))?;
    Ok(())
}
