//! Plain values of a flat design, its timing, its constraints and its layering, with the definitions of what they mean.
#![tactic(auto)]

mod clocks;
mod designs;
mod layers;
mod policies;
mod timings;

pub use clocks::{
    Capture, Captures, Clock, ClockList, Clocks, Constraints, Exception, ExceptionKind, Exceptions,
    Launch, Launches, Marks, PinGroups,
};
pub use designs::{Pin, PinList, Pins, Place, Places, Wire, Wires};
pub use layers::{
    Class, Classes, LayerItem, LayerItems, LayerNode, LayerNodes, Layered, Met, MetList,
};
pub use policies::{Edit, Numbered, NumberedCommand, Policy, PolicyLine, PolicyLines};
pub use timings::{Check, Checks, LaunchEdge, LaunchEdges, Pair, Pairs, Timing};
