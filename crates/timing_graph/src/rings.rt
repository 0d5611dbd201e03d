ghost use Rattle.std.specs.Prelude.{◌≡◌, ◌<◌, length, All, IfOk};
ghost use Rattle.bud_base.specs.Orders.{IsCycle, IsWithinNodes};
ghost use Rattle.bud_base.specs.Rings.{IsLeastPlace};
ghost use Rattle.timing_graph.specs.Rings.{IsOwnRing, IsOwnCycle};

use bud_base::{Item, ItemId};
use std::alloc::{AllocError, Global};

/// A part of a ring: from a place to another.
#[derive(Clone, Copy, Debug)]
struct Part {
    from: usize,
    to: usize,
}

/// The part of a ring up to where it comes to a node again, from behind that node on.
fn own_part(
    alloc: Global,
    nodes: usize,
    items: &[Item],
    ring: &[ItemId],
) -> Result<Part, AllocError>
    requires within { All (IsWithinNodes nodes) items.now }
    requires cycle { IsCycle items.now ring.now }
    ensures { IfOk result (λ part. IsOwnRing items.now ring.now part) }
{
    let mut seen: Vec<Option<usize>> = vec![in alloc; None; nodes]?;
    for (place, item) in ring.iter().enumerate() {
        let node = items[item.0 as usize].to.0 as usize;
        match seen[node] {
            Some(before) => {
                return Ok(Part {
                    from: before + 1,
                    to: place + 1,
                });
            }
            None => seen[node] = Some(place),
        }
    }
    Ok(Part {
        from: 0,
        to: ring.len(),
    })
}

/// The place of the least item number.
fn least_place(ring: &[ItemId]) -> usize
    requires { 0 < length ring.now }
    ensures { IsLeastPlace ring.now result }
{
    let mut least = 0;
    for (place, item) in ring.iter().enumerate() {
        if item.0 < ring[least].0 {
            least = place;
        }
    }
    least
}

/// A cycle that leads to no node twice, out of a cycle; the least item number comes first.
pub fn own_cycle(
    alloc: Global,
    nodes: usize,
    items: &[Item],
    ring: &[ItemId],
) -> Result<Vec<ItemId>, AllocError>
    requires within { All (IsWithinNodes nodes) items.now }
    requires cycle { IsCycle items.now ring.now }
    ensures { IfOk result (λ own. IsOwnCycle items.now own.items) }
{
    let part = own_part(alloc, nodes, items, ring)?;
    let mut own = Vec::from_slice(alloc, &ring[part.from..part.to])?;
    let place = least_place(&own);
    own.rotate_left(place);
    Ok(own)
}
