use crate::ids::{ItemId, NodeId};
use crate::lists::Listed;
use crate::orders::NodeOrder;
use crate::problems::{End, Item, Problem, Start};
use std::process::Abort;
use std::test::Fail;

fn item(from: u32, to: u32, least: i64) -> Item {
    Item {
        from: NodeId(from),
        to: NodeId(to),
        least,
        greatest: 10,
        weight: 1,
    }
}

fn start(node: u32, offset: i64) -> Start {
    Start {
        node: NodeId(node),
        offset,
    }
}

fn end(node: u32, require: i64) -> End {
    End {
        node: NodeId(node),
        require,
    }
}

/// What `check` answers, as it is debugged.
fn checked(
    rt: &(impl Abort + AllocGlobal),
    nodes: u32,
    items: &[Item],
    starts: &[Start],
    ends: &[End],
) -> Result<String, Fail> {
    let problem = Problem {
        nodes,
        items: Listed::from_vec(Vec::from_slice(rt.alloc(), items)?),
        starts: Listed::from_vec(Vec::from_slice(rt.alloc(), starts)?),
        ends: Listed::from_vec(Vec::from_slice(rt.alloc(), ends)?),
    };
    assert!(rt; problem.items.len() < 2_147_483_648);
    assert!(rt; problem.starts.len() < 2_147_483_648);
    assert!(rt; problem.ends.len() < 2_147_483_648);
    let answer = problem.check();
    Ok(format!(in rt.alloc(); "{answer:?}")?)
}

#[test]
fn checks_problems(rt: HostRuntime) -> Result<(), Fail> {
    let late = 2_000_000_000_001;
    let ring = [item(0, 1, 0), item(1, 0, 0)];
    let turned = [item(0, 1, 0), item(2, 0, 0), item(1, 2, 0)];
    let down = [item(2, 1, 0), item(1, 0, 0)];
    let fork = [item(0, 1, 0), item(0, 2, 0)];
    let s = [start(0, 0)];
    let e = [end(1, 0)];
    let cases: [(u32, &[Item], &[Start], &[End], &str); 14] = [
        (
            2,
            &ring,
            &s,
            &e,
            "Err(Cycle(Listed { vec: [ItemId(0), ItemId(1)] }))",
        ),
        (
            3,
            &turned,
            &s,
            &e,
            "Err(Cycle(Listed { vec: [ItemId(0), ItemId(2), ItemId(1)] }))",
        ),
        (1, &[], &[], &[end(0, 0)], "Err(Dead(NodeId(0)))"),
        (1, &[], &s, &[], "Err(Dead(NodeId(0)))"),
        (3, &fork, &s, &e, "Err(Dead(NodeId(2)))"),
        (3, &down, &[start(2, 0)], &[end(0, 0)], "Ok(())"),
        (1, &[], &s, &[end(0, 0)], "Ok(())"),
        (0, &[], &[], &[], "Ok(())"),
        (1, &ring, &s, &e, "Err(BadNode(1))"),
        (2, &ring, &[start(3, 0)], &[end(2, 0)], "Err(BadNode(3))"),
        (2, &[item(0, 1, -1)], &s, &e, "Err(BadBounds(ItemId(0)))"),
        (
            2,
            &ring,
            &[start(0, late)],
            &[end(1, -late)],
            "Err(BadTime(NodeId(0)))",
        ),
        (2, &ring, &s, &[end(1, -late)], "Err(BadTime(NodeId(1)))"),
        (8_388_609, &[], &[], &[], "Err(TooLarge(8388609))"),
    ];
    for (nodes, items, starts, ends, want) in cases {
        let answer = checked(&rt, nodes, items, starts, ends)?;
        assert_eq!(rt; answer.as_str(), want);
    }
    Ok(())
}

#[test]
fn takes_room(rt: HostRuntime) -> Result<(), Fail> {
    let order = NodeOrder::new(rt.alloc(), 4, 3)?;
    assert!(rt; order.fits(4, 3));
    assert!(rt; !order.fits(5, 3));
    assert!(rt; !order.fits(4, 4));
    let mut list = Listed::new(rt.alloc());
    list.push(ItemId(7))?;
    assert_eq!(rt; list.as_slice(), [ItemId(7)].as_slice());
    Ok(())
}
