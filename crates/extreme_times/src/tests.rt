//! A worked example: two ways from a node to another one, with a start and an end between.
use crate::extreme_times;
use bud_base::{End, Item, Listed, NodeId, Problem, Start};
use std::test::Fail;

fn item(from: u32, to: u32, least: i64) -> Item {
    Item {
        from: NodeId(from),
        to: NodeId(to),
        least,
        greatest: 100,
        weight: 1,
    }
}

fn start(node: u32, offset: i64) -> Start {
    Start {
        node: NodeId(node),
        offset,
    }
}

fn end(node: u32, require: i64) -> End {
    End {
        node: NodeId(node),
        require,
    }
}

#[test]
fn slowest_ways_count(rt: HostRuntime) -> Result<(), Fail> {
    let alloc = rt.alloc();
    let problem = Problem {
        nodes: 4,
        items: Listed::from_vec(vec![in alloc;
            item(2, 3, 1),
            item(0, 1, 5),
            item(1, 2, 7),
            item(0, 2, 20),
        ]?),
        starts: Listed::from_vec(vec![in alloc; start(0, 100), start(1, 110)]?),
        ends: Listed::from_vec(vec![in alloc; end(3, 200), end(2, 150)]?),
    };
    match problem.check() {
        Ok(()) => {}
        Err(_) => panic!(rt; "the problem is sound"),
    }
    let extremes = extreme_times(alloc, &problem)?;
    assert_eq!(rt; extremes.early.as_slice(), [100, 110, 120, 121].as_slice());
    assert_eq!(rt; extremes.late.as_slice(), [130, 143, 150, 200].as_slice());
    Ok(())
}
