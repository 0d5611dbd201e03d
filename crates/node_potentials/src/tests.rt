//! A round over three nodes.

use crate::Potentials;
use bud_base::NodeId;
use std::test::Fail;

#[test]
fn potentials_move_one_by_one(rt: HostRuntime) -> Result<(), Fail> {
    let mut potentials = Potentials::new(rt.alloc(), vec![in rt.alloc(); 5, 7, 9]?)?;
    potentials.put(NodeId(2), 11);
    potentials.put(NodeId(0), -3);
    potentials.put(NodeId(2), 12);
    potentials.keep();
    potentials.put(NodeId(1), 8);
    potentials.keep();
    assert_eq!(rt; potentials.potential_of(NodeId(0)), -3);
    assert_eq!(rt; potentials.potential_of(NodeId(1)), 8);
    assert_eq!(rt; potentials.potential_of(NodeId(2)), 12);
    Ok(())
}
