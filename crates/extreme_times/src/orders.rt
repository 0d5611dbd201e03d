ghost use Rattle.bud_base.specs.Soundness.{IsSound};

use bud_base::{Item, NodeId, NodeOrder, Problem};
use std::alloc::{AllocError, Global};

/// An item's number, behind the place of the node that it leaves.
#[derive(Clone, Copy, Debug, PartialEq, Eq, PartialOrd, Ord)]
pub struct Rank {
    pub place: usize,
    pub item: usize,
}

/// The place of each node in the order.
fn places_of(alloc: Global, nodes: usize, order: &[NodeId]) -> Result<Vec<usize>, AllocError> {
    let mut places = vec![in alloc; 0usize; nodes]?;
    for place in 0..order.len() {
        let node = order[place].0 as usize;
        if node < places.len() {
            places[node] = place;
        }
    }
    Ok(places)
}

/// The items' ranks, in order of number.
fn ranks_of(alloc: Global, items: &[Item], places: &[usize]) -> Result<Vec<Rank>, AllocError> {
    let mut ranks = Vec::with_capacity(alloc, items.len())?;
    for item in 0..items.len() {
        let place = match places.get(items[item].from.0 as usize) {
            Some(place) => *place,
            None => 0,
        };
        ranks.push(Rank { place, item })?;
    }
    Ok(ranks)
}

/// The items in the order of the nodes that they leave.
pub fn items_in_order(alloc: Global, problem: &Problem) -> Result<Vec<Rank>, AllocError>
    requires { IsSound problem.now }
{
    let items = problem.items.as_slice();
    let mut order = NodeOrder::new(alloc, problem.nodes, items.len())?;
    let _ = order.find(problem.nodes, items);
    let places = places_of(alloc, problem.nodes as usize, order.nodes())?;
    let mut ranks = ranks_of(alloc, items, &places)?;
    ranks.sort_unstable();
    Ok(ranks)
}
