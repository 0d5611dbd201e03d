//! Keys of two nodes.

use crate::ArcLists;
use bud_base::NodeId;
use std::test::Fail;

#[test]
fn keys_stand_in_the_order_of_pushes(rt: HostRuntime) -> Result<(), Fail> {
    let mut lists = ArcLists::new(rt.alloc(), 2)?;
    lists.push(NodeId(1), 7)?;
    lists.push(NodeId(0), 4)?;
    lists.push(NodeId(1), 9)?;
    assert_eq!(rt; lists.degree(NodeId(0)), 1);
    assert_eq!(rt; lists.degree(NodeId(1)), 2);
    assert_eq!(rt; lists.key_at(NodeId(1), 0), 7);
    assert_eq!(rt; lists.key_at(NodeId(1), 1), 9);
    Ok(())
}
