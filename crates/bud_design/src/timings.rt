use bud_base::{Listed, PinId, Times};
use bud_syntax::Edge;

/// What a delay file says of a flat design, in ps.
#[derive(Debug, Drop)]
pub struct Timing {
    /// One number for each wire.
    pub wires: Times,
    /// In order of their pins.
    pub pairs: Pairs,
    /// In order of data pin, clock pin and edge.
    pub checks: Checks,
    /// The clock pins of registers, in pin order.
    pub edges: LaunchEdges,
    /// How many pairs of pins of registers no arc stands for.
    pub left_out: u32,
}

/// The delay of a cell arc or, where `launch`, of a launch arc.
#[derive(Clone, Copy, Debug, PartialEq, Eq)]
pub struct Pair {
    pub from: PinId,
    pub to: PinId,
    pub value: i64,
    pub launch: bool,
}

/// A setup check.
#[derive(Clone, Copy, Debug, PartialEq, Eq)]
pub struct Check {
    pub pin: PinId,
    pub clock: PinId,
    pub edge: Edge,
    pub amount: i64,
}

/// A clock pin with the edge that it launches on.
#[derive(Clone, Copy, Debug, PartialEq, Eq)]
pub struct LaunchEdge {
    pub pin: PinId,
    pub edge: Edge,
}

pub type Pairs = Listed<Pair>;

pub type Checks = Listed<Check>;

pub type LaunchEdges = Listed<LaunchEdge>;
