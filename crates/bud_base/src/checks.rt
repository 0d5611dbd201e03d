ghost use Rattle.std.specs.Prelude.{◌<◌, length, OnOk, IsOkUnless};
ghost use Rattle.std.specs.Result.{IsErrOf};
ghost use Rattle.bud_base.specs.Checking.{IsOrderAnswer};
ghost use Rattle.bud_base.specs.Markings.{NamesOwnNodes};
ghost use Rattle.bud_base.specs.Soundness.{IsListable, IsCheckAnswer, IsInRange, IsSound};

use crate::ids::{ItemId, NodeId};
use crate::lists::Listed;
use crate::liveness::check_live;
use crate::orders::NodeOrder;
use crate::problems::Problem;
use crate::ranges::check_ranges;
use thiserror::Error;

/// Why a problem is not sound.
#[derive(Debug, Drop, Error)]
pub enum ProblemFault {
    /// The first node number, over items, starts and ends, that is out of range.
    #[error("bad node")]
    BadNode(u32),
    /// The first item without `0 <= least <= greatest <= 2*10^9` ps and a weight of at most 2^20.
    #[error("bad bounds")]
    BadBounds(ItemId),
    /// The node of the first start or end whose time passes 2*10^12 ps either way.
    #[error("bad time")]
    BadTime(NodeId),
    /// The limit plus 1, where there are more than 2^22 items, or more than 2^23 nodes, starts or ends.
    #[error("too large")]
    TooLarge(u64),
    /// A cycle of items, told from its least item number.
    #[error("cycle")]
    Cycle(Listed<ItemId>),
    /// The first node that lies on no path.
    #[error("dead")]
    Dead(NodeId),
    /// Want of memory.
    #[error("memory")]
    NoMemory,
}

impl Problem {
    /// Answers Ok where the problem is sound, and else the first of these that holds: BadNode, BadBounds, BadTime,
    /// TooLarge, Cycle, Dead. Items' nodes are tried first, then those of starts, then those of ends.
    ///
    /// It takes time and memory linear in the problem's size, and memory only once every number is in range.
    pub fn check(&self) -> Result<(), ProblemFault>
        requires { IsListable self.now }
        ensures first { IsCheckAnswer self.now result }
        ensures sound { OnOk result (IsSound self.now) }
        ensures refused { IsSound self.now → IsOkUnless result ProblemFault.NoMemory }
        ensures memory { IsErrOf result ProblemFault.NoMemory → IsInRange self.now }
    {
        check_ranges(self)?;
        let order = find_order(self)?;
        check_live(self, &order)
    }
}

/// An order of the nodes that the items follow.
fn find_order(problem: &Problem) -> Result<NodeOrder, ProblemFault>
    requires small { length problem.now.items < 2147483648 }
    requires names { NamesOwnNodes problem.now }
    ensures { IsOrderAnswer problem.now result }
{
    let alloc = problem.items.allocator();
    let Ok(mut order) = NodeOrder::new(alloc, problem.nodes, problem.items.len()) else {
        return Err(ProblemFault::NoMemory);
    };
    if order.find(problem.nodes, problem.items.as_slice()) {
        return Ok(order);
    }
    match Vec::from_slice(alloc, order.cycle()) {
        Ok(items) => Err(ProblemFault::Cycle(Listed::from_vec(items))),
        Err(_) => Err(ProblemFault::NoMemory),
    }
}
