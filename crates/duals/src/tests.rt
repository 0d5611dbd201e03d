//! Worked problems, from their networks to their plans, and that with ample memory each call succeeds.
ghost use Rattle.std.specs.Prelude.{◌≡◌, ◌<◌, OnOk};
ghost use Rattle.bud_base.specs.Paths.{Meets};
ghost use Rattle.bud_base.specs.Soundness.{IsSound};

use crate::plan_of;
use bud_base::{End, Item, Listed, NodeId, Problem, Start, Steps};
use bud_plans::Plan;
use flow_solver::solve;
use least_check::{Least, LeastCheck};
use residual::Net;
use std::alloc::{AllocError, Global};
use std::marker::Brand;
use std::process::Abort;
use std::sync::ledger::{Blank, Ledger};
use std::test::Fail;

fn item(from: u32, to: u32, least: i64, greatest: i64, weight: u32) -> Item {
    Item {
        from: NodeId(from),
        to: NodeId(to),
        least,
        greatest,
        weight,
    }
}

fn problem(nodes: u32, items: Vec<Item>, starts: Vec<Start>, ends: Vec<End>) -> Problem {
    Problem {
        nodes,
        items: Listed::from_vec(items),
        starts: Listed::from_vec(starts),
        ends: Listed::from_vec(ends),
    }
}

/// Paths begin at node 0, at 0 ps.
fn begin() -> Start {
    Start {
        node: NodeId(0),
        offset: 0,
    }
}

fn end(node: u32, require: i64) -> End {
    End {
        node: NodeId(node),
        require,
    }
}

/// The plan of a problem that meets at least delays.
fn solved<L: Ledger>(alloc: Global, problem: &Problem, blank: Blank) -> Result<Plan, AllocError>
    requires sound { IsSound problem.now }
    requires meets { Meets problem.now }
    requires name { blank.name ≡ L.name }
    requires parts { blank.parts ≡ L.parts }
    requires some { 0 < blank.parts }
{
    let mut net = Net::new(alloc, problem)?;
    let mut steps: Steps<L> = Steps::new(blank);
    solve(alloc, &mut net, problem, &mut steps)?;
    plan_of(alloc, &net, problem)
}

/// Checks that a small problem is sound and meets.
fn check(rt: &impl Abort, alloc: Global, problem: &Problem) -> Result<(), AllocError>
    ensures sound { OnOk result (IsSound problem.now) }
    ensures meets { OnOk result (Meets problem.now) }
{
    assert!(rt; problem.items.len() < 10);
    assert!(rt; problem.starts.len() < 10);
    assert!(rt; problem.ends.len() < 10);
    match problem.check() {
        Ok(()) => {}
        Err(_) => panic!(rt; "the problem is sound"),
    }
    let mut check = LeastCheck::new(alloc, problem)?;
    assert!(rt; check.fits(problem));
    match check.run(problem) {
        Least::NoPaths => Ok(()),
        Least::Meets(_) => Ok(()),
        Least::Violated(_) => panic!(rt; "the problem meets"),
    }
}

/// The plan of a small problem.
fn planned(rt: &impl Abort, alloc: Global, problem: &Problem) -> Result<Plan, AllocError> {
    check(rt, alloc, problem)?;
    solved::<Brand>(alloc, problem, Blank::new(1))
}

#[test]
fn two_items_in_a_row(rt: HostRuntime) -> Result<(), Fail> {
    let alloc = rt.alloc();
    for (require, budgets, weight) in [(150, [100, 50], 400), (70, [40, 30], 180)] {
        let items = vec![in alloc; item(0, 1, 40, 100, 3), item(1, 2, 30, 90, 2)]?;
        let row = problem(
            3,
            items,
            vec![in alloc; begin()]?,
            vec![in alloc; end(2, require)]?,
        );
        let plan = planned(&rt, alloc, &row)?;
        assert_eq!(rt; plan.budgets.as_slice(), budgets.as_slice());
        assert_eq!(rt; plan.weight, weight);
    }
    Ok(())
}

#[test]
fn a_fork_after_one_item(rt: HostRuntime) -> Result<(), Fail> {
    let alloc = rt.alloc();
    let items = vec![in alloc;
        item(0, 1, 10, 100, 1),
        item(1, 2, 10, 100, 1),
        item(1, 3, 10, 100, 1),
    ]?;
    let ends = vec![in alloc; end(2, 100), end(3, 100)]?;
    let fork = problem(4, items, vec![in alloc; begin()]?, ends);
    let plan = planned(&rt, alloc, &fork)?;
    assert_eq!(rt; plan.arrivals.as_slice(), [0, 10, 100, 100].as_slice());
    assert_eq!(rt; plan.budgets.as_slice(), [10, 90, 90].as_slice());
    assert_eq!(rt; plan.flow.as_slice(), [2, 1, 1].as_slice());
    assert_eq!(rt; plan.start_flow.as_slice(), [2].as_slice());
    assert_eq!(rt; plan.end_flow.as_slice(), [1, 1].as_slice());
    assert_eq!(rt; plan.weight, 190);
    Ok(())
}

#[test]
fn any_of_several_best_budgets(rt: HostRuntime) -> Result<(), Fail> {
    let alloc = rt.alloc();
    let items = vec![in alloc; item(0, 1, 0, 100, 1), item(1, 2, 0, 100, 1)]?;
    let row = problem(
        3,
        items,
        vec![in alloc; begin()]?,
        vec![in alloc; end(2, 150)]?,
    );
    let plan = planned(&rt, alloc, &row)?;
    assert_eq!(rt; plan.weight, 150);
    Ok(())
}

#[test]
fn nothing_for_nothing(rt: HostRuntime) -> Result<(), Fail> {
    let alloc = rt.alloc();
    let empty = problem(0, Vec::new(alloc), Vec::new(alloc), Vec::new(alloc));
    let plan = planned(&rt, alloc, &empty)?;
    assert_eq!(rt; plan.budgets.len(), 0);
    assert_eq!(rt; plan.weight, 0);
    Ok(())
}
