//! A worked search: the nearest nodes come first.
ghost use Rattle.std.specs.Prelude.{◌≡◌, ◌<◌, length};

use crate::Search;
use bud_base::NodeId;
use std::test::Fail;

/// Tells that a node was reached.
fn reach(search: &mut Search, node: u32, distance: i64, by: Option<usize>)
    requires { node < length search.old.entries }
    ensures { length search.new.entries ≡ length search.old.entries }
{
    search.reach(NodeId(node), distance, by);
}

#[test]
fn the_nearest_come_first(rt: HostRuntime) -> Result<(), Fail> {
    let mut search = Search::new(rt.alloc(), 5)?;
    reach(&mut search, 3, 7, None);
    reach(&mut search, 0, 4, Some(8));
    reach(&mut search, 4, 9, Some(2));
    reach(&mut search, 3, 5, Some(6));
    reach(&mut search, 0, 4, Some(1));
    reach(&mut search, 2, 12, None);
    let Some(entry) = search.reached(NodeId(3)) else {
        panic!(rt; "the node was reached")
    };
    assert_eq!(rt; entry.distance, 5);
    assert_eq!(rt; entry.by, Some(6));
    for (node, distance) in [(0, 4), (3, 5), (4, 9), (2, 12)] {
        let Some(near) = search.nearest() else {
            panic!(rt; "node {node} waits")
        };
        assert_eq!(rt; near.node.0, node);
        assert_eq!(rt; near.distance, distance);
    }
    assert!(rt; search.nearest().is_none());
    let Some(second) = search.taken(1) else {
        panic!(rt; "two nodes were taken")
    };
    assert_eq!(rt; second.0, 3);
    search.restart();
    assert!(rt; search.nearest().is_none());
    assert!(rt; search.taken(0).is_none());
    Ok(())
}
