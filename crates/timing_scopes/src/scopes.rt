use bud_base::{Listed, PinId, Text};
use bud_design::Exceptions;
use bud_syntax::{Edge, ObjectGroups, Objects};
use timing_objects::ClockTable;

/// A delay at a pin, from an edge of a clock or up to one.
#[derive(Clone, Copy, Debug, PartialEq, Eq)]
pub struct PinDelay {
    pub pin: PinId,
    pub clock: u32,
    pub edge: Edge,
    /// In ps.
    pub amount: i64,
}

pub type PinDelays = Listed<PinDelay>;

/// What the commands so far say.
#[derive(Drop)]
pub struct Scope {
    pub clocks: ClockTable,
    pub inputs: PinDelays,
    pub outputs: PinDelays,
    pub exceptions: Exceptions,
}

/// A clock's period and the times of its first edges, in ps.
#[derive(Clone, Copy, Debug)]
pub struct Wave {
    pub period: i64,
    pub rise: i64,
    pub fall: i64,
}

/// The paths that an exception names: their beginnings, what they pass, and their ends.
#[derive(Clone, Copy)]
pub struct Paths<'a> {
    pub from: &'a Option<Objects>,
    pub through: &'a ObjectGroups,
    pub to: &'a Option<Objects>,
}

/// What a command on ports gives: a delay from an edge of a clock, or up to one, at ports.
#[derive(Clone, Copy)]
pub struct Given<'a> {
    /// In ps.
    pub amount: i64,
    pub clock: &'a Text,
    pub edge: Edge,
    /// False where it speaks of hold checks alone.
    pub setup: bool,
    /// Whether the delays that were there stand.
    pub add: bool,
    pub ports: &'a Objects,
}
