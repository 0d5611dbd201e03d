use bud_base::{ArcId, Item, PinId};
use class_steps::ClassTable;
use indexmap::IndexSet;

/// A pin in a class, which has a number in the table.
#[derive(Clone, Copy, Debug, PartialEq, Eq, Hash)]
pub struct State {
    pub pin: PinId,
    pub kind: u32,
}

/// The states that launches reach, and the edges between them.
#[derive(Debug, Drop)]
pub struct StateTable {
    /// The classes of the states.
    pub kinds: ClassTable,
    pub states: IndexSet<State>,
    /// The first launch that reaches each state.
    pub launches: Vec<u32>,
    /// The edges: an arc from a state to a state.
    pub edges: Vec<Item>,
    /// The arc of each edge.
    pub arcs: Vec<ArcId>,
}
