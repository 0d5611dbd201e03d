use crate::designs::PinList;
use bud_base::{Listed, PinId, Text};
use bud_syntax::Edge;

/// A clock, whose edges come at `rise` and `fall` and each period after.
#[derive(Debug, Drop)]
pub struct Clock {
    pub name: Text,
    pub period: i64,
    pub rise: i64,
    pub fall: i64,
    pub sources: PinList,
}

/// Where paths begin: an edge of a clock, and how long after it.
#[derive(Clone, Copy, Debug, PartialEq, Eq)]
pub struct Launch {
    pub pin: PinId,
    pub clock: u32,
    pub edge: Edge,
    pub offset: i64,
}

/// Where paths end: an edge of a clock, and how long before it.
#[derive(Clone, Copy, Debug, PartialEq, Eq)]
pub struct Capture {
    pub pin: PinId,
    pub clock: u32,
    pub edge: Edge,
    pub amount: i64,
}

/// What an exception says of the paths that it matches.
#[derive(Clone, Copy, Debug, PartialEq, Eq)]
pub enum ExceptionKind {
    FalsePath,
    /// So many periods, of the launching clock where true.
    Multicycle(u32, bool),
    MaxDelay(i64),
}

/// What a from-part or a to-part names.
#[derive(Debug, Drop)]
pub struct Marks {
    pub pins: PinList,
    pub clocks: ClockList,
}

/// A timing exception. A part that isn't there is None; a part that names nothing is empty.
#[derive(Debug, Drop)]
pub struct Exception {
    pub number: u32,
    pub kind: ExceptionKind,
    pub from: Option<Marks>,
    pub groups: PinGroups,
    pub to: Option<Marks>,
}

/// The clocks, launches, captures and exceptions of a design.
#[derive(Debug, Drop)]
pub struct Constraints {
    pub clocks: Clocks,
    pub launches: Launches,
    pub captures: Captures,
    pub exceptions: Exceptions,
    /// The clock pins that no clock reaches, in pin order.
    pub unclocked: PinList,
}

pub type ClockList = Listed<u32>;

pub type PinGroups = Listed<PinList>;

pub type Clocks = Listed<Clock>;

pub type Launches = Listed<Launch>;

pub type Captures = Listed<Capture>;

pub type Exceptions = Listed<Exception>;
