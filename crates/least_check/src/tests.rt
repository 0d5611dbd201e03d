//! Worked examples, and that with ample memory each call succeeds.
use crate::{Least, LeastCheck};
use bud_base::{End, Item, ItemId, Listed, NodeId, Problem, Start};
use std::alloc::{AllocError, Global};
use std::process::Abort;
use std::test::Fail;

fn item(from: u32, to: u32, least: i64) -> Item {
    Item {
        from: NodeId(from),
        to: NodeId(to),
        least,
        greatest: 100,
        weight: 1,
    }
}

fn start(node: u32, offset: i64) -> Start {
    Start {
        node: NodeId(node),
        offset,
    }
}

fn end(node: u32, require: i64) -> End {
    End {
        node: NodeId(node),
        require,
    }
}

fn problem(nodes: u32, items: Vec<Item>, starts: Vec<Start>, ends: Vec<End>) -> Problem {
    Problem {
        nodes,
        items: Listed::from_vec(items),
        starts: Listed::from_vec(starts),
        ends: Listed::from_vec(ends),
    }
}

/// Runs a new check on a small and sound problem, and compares the answer.
fn checked(
    rt: &impl Abort,
    alloc: Global,
    problem: &Problem,
    least: Least,
) -> Result<LeastCheck, AllocError> {
    assert!(rt; problem.items.len() < 10);
    assert!(rt; problem.starts.len() < 10);
    assert!(rt; problem.ends.len() < 10);
    match problem.check() {
        Ok(()) => {}
        Err(_) => panic!(rt; "the problem is sound"),
    }
    let mut check = LeastCheck::new(alloc, problem)?;
    assert!(rt; check.fits(problem));
    assert_eq!(rt; check.run(problem), least);
    Ok(check)
}

#[test]
fn two_items_in_a_row(rt: HostRuntime) -> Result<(), Fail> {
    let alloc = rt.alloc();
    for (require, least) in [
        (150, Least::Meets(80)),
        (69, Least::Violated(-1)),
        (70, Least::Meets(0)),
    ] {
        let items = vec![in alloc; item(0, 1, 40), item(1, 2, 30)]?;
        let row = problem(
            3,
            items,
            vec![in alloc; start(0, 0)]?,
            vec![in alloc; end(2, require)]?,
        );
        let check = checked(&rt, alloc, &row, least)?;
        assert_eq!(rt; check.worst(), [ItemId(0), ItemId(1)].as_slice());
        assert_eq!(rt; check.ends(), (0, 0));
    }
    Ok(())
}

#[test]
fn nodes_against_the_numbers(rt: HostRuntime) -> Result<(), Fail> {
    let alloc = rt.alloc();
    let items = vec![in alloc; item(1, 0, 30), item(2, 1, 40)]?;
    let row = problem(
        3,
        items,
        vec![in alloc; start(2, 0)]?,
        vec![in alloc; end(0, 69)]?,
    );
    let check = checked(&rt, alloc, &row, Least::Violated(-1))?;
    assert_eq!(rt; check.worst(), [ItemId(1), ItemId(0)].as_slice());
    Ok(())
}

#[test]
fn fork(rt: HostRuntime) -> Result<(), Fail> {
    let alloc = rt.alloc();
    let items = vec![in alloc; item(0, 1, 10), item(1, 2, 10), item(1, 3, 10)]?;
    let ends = vec![in alloc; end(2, 100), end(3, 100)]?;
    checked(
        &rt,
        alloc,
        &problem(4, items, vec![in alloc; start(0, 0)]?, ends),
        Least::Meets(80),
    )?;
    Ok(())
}

#[test]
fn several_starts_and_ends_at_a_node(rt: HostRuntime) -> Result<(), Fail> {
    let alloc = rt.alloc();
    let starts = vec![in alloc; start(0, 3), start(0, 7), start(0, 5)]?;
    let ends = vec![in alloc; end(1, 90), end(1, 60), end(1, 50)]?;
    let check = checked(
        &rt,
        alloc,
        &problem(2, vec![in alloc; item(0, 1, 10)]?, starts, ends),
        Least::Meets(33),
    )?;
    assert_eq!(rt; check.worst(), [ItemId(0)].as_slice());
    assert_eq!(rt; check.ends(), (1, 2));
    Ok(())
}

#[test]
fn without_items(rt: HostRuntime) -> Result<(), Fail> {
    let alloc = rt.alloc();
    let shared = problem(
        1,
        Vec::new(alloc),
        vec![in alloc; start(0, 0)]?,
        vec![in alloc; end(0, 5)]?,
    );
    let check = checked(&rt, alloc, &shared, Least::Meets(5))?;
    assert_eq!(rt; check.worst(), [].as_slice());
    assert_eq!(rt; check.ends(), (0, 0));
    let nothing = problem(0, Vec::new(alloc), Vec::new(alloc), Vec::new(alloc));
    let check = checked(&rt, alloc, &nothing, Least::NoPaths)?;
    assert!(rt; !check.fits(&shared));
    Ok(())
}
