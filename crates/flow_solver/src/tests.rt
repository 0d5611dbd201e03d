//! A worked network, and that with ample memory it is solved.
ghost use Rattle.std.specs.Prelude.{◌≡◌, ◌<◌, IfOk};
ghost use Rattle.bud_base.specs.Paths.{Meets};
ghost use Rattle.bud_base.specs.Soundness.{IsSound};
ghost use Rattle.residual.specs.Networks.{Fits};

use crate::solve;
use bud_base::{End, Item, ItemId, Listed, NodeId, Problem, Start, Steps};
use least_check::{Least, LeastCheck};
use residual::Net;
use std::alloc::{AllocError, Global};
use std::marker::Brand;
use std::process::Abort;
use std::sync::ledger::{Blank, Ledger};
use std::test::Fail;

/// An item from 10 to 100 ps, of weight 1.
fn item(from: u32, to: u32) -> Item {
    Item {
        from: NodeId(from),
        to: NodeId(to),
        least: 10,
        greatest: 100,
        weight: 1,
    }
}

fn end(node: u32) -> End {
    End {
        node: NodeId(node),
        require: 100,
    }
}

/// One item that forks into two, from 0 to 100 ps.
fn fork(alloc: Global) -> Result<Problem, AllocError> {
    let begin = Start {
        node: NodeId(0),
        offset: 0,
    };
    Ok(Problem {
        nodes: 4,
        items: Listed::from_vec(vec![in alloc; item(0, 1), item(1, 2), item(1, 3)]?),
        starts: Listed::from_vec(vec![in alloc; begin]?),
        ends: Listed::from_vec(vec![in alloc; end(2), end(3)]?),
    })
}

/// The settled network of a problem that meets.
fn solved<L: Ledger>(alloc: Global, problem: &Problem, blank: Blank) -> Result<Net, AllocError>
    requires sound { IsSound problem.now }
    requires meets { Meets problem.now }
    requires name { blank.name ≡ L.name }
    requires parts { blank.parts ≡ L.parts }
    requires some { 0 < blank.parts }
    ensures { IfOk result (λ net. Fits net problem.now) }
{
    let mut net = Net::new(alloc, problem)?;
    let mut steps: Steps<L> = Steps::new(blank);
    solve(alloc, &mut net, problem, &mut steps)?;
    Ok(net)
}

/// Checks that a small problem is sound and meets, and settles its network.
fn checked(rt: &impl Abort, alloc: Global, problem: &Problem) -> Result<Net, AllocError>
    ensures { IfOk result (λ net. Fits net problem.now) }
{
    assert!(rt; problem.items.len() < 10);
    assert!(rt; problem.starts.len() < 10);
    assert!(rt; problem.ends.len() < 10);
    match problem.check() {
        Ok(()) => {}
        Err(_) => panic!(rt; "the problem is sound"),
    }
    let mut check = LeastCheck::new(alloc, problem)?;
    assert!(rt; check.fits(problem));
    let Least::Meets(_) = check.run(problem) else {
        panic!(rt; "the problem meets")
    };
    solved::<Brand>(alloc, problem, Blank::new(1))
}

#[test]
fn the_first_item_carries_both_flows(rt: HostRuntime) -> Result<(), Fail> {
    let alloc = rt.alloc();
    let problem = fork(alloc)?;
    assert!(rt; problem.items.len() == 3);
    assert!(rt; problem.starts.len() == 1);
    assert!(rt; problem.ends.len() == 2);
    let net = checked(&rt, alloc, &problem)?;
    let flows = [
        net.item_flow(ItemId(0)),
        net.item_flow(ItemId(1)),
        net.item_flow(ItemId(2)),
    ];
    assert_eq!(rt; flows, [2, 1, 1]);
    assert_eq!(rt; net.start_flow(0), 2);
    assert_eq!(rt; [net.end_flow(0), net.end_flow(1)], [1, 1]);
    Ok(())
}
