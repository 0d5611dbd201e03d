use crate::ids::NodeId;
use crate::lists::Listed;

/// An arc of the problem, from one node to another, that a budget is sought for.
#[derive(Clone, Copy, Debug, PartialEq, Eq)]
pub struct Item {
    pub from: NodeId,
    pub to: NodeId,
    /// The least delay, in ps.
    pub least: i64,
    /// The greatest budget, in ps.
    pub greatest: i64,
    /// What a picosecond of budget is worth.
    pub weight: u32,
}

/// Where paths begin.
#[derive(Clone, Copy, Debug, PartialEq, Eq)]
pub struct Start {
    pub node: NodeId,
    /// When paths begin, in ps.
    pub offset: i64,
}

/// Where paths end.
#[derive(Clone, Copy, Debug, PartialEq, Eq)]
pub struct End {
    pub node: NodeId,
    /// The latest time at which paths may end, in ps.
    pub require: i64,
}

pub type Items = Listed<Item>;

pub type Starts = Listed<Start>;

pub type Ends = Listed<End>;

/// A budgeting problem over nodes numbered from 0.
#[derive(Debug, Drop)]
pub struct Problem {
    pub nodes: u32,
    pub items: Items,
    pub starts: Starts,
    pub ends: Ends,
}
