//! Numbers of live classes, of nodes and of items.
#![tactic(auto)]

mod firsts;
mod placed;
mod ranks;
mod steps;

pub use placed::{Placed, are_rising, find_placed, sort_placed};
pub use ranks::{KindKey, Ranks, rank_kinds};
