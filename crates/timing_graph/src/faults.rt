use bud_base::{Listed, PinId};

/// Two pins that an arc joins.
#[derive(Clone, Copy, Debug, PartialEq, Eq)]
pub struct PinPair {
    pub from: PinId,
    pub to: PinId,
}

pub type PinPairs = Listed<PinPair>;

/// Why a design has no timing graph.
#[derive(Debug, Drop)]
pub enum GraphFault {
    /// Arcs that lead back to where they begin and enter no pin twice, the least number first.
    Cycle(PinPairs),
    NoMemory,
}
