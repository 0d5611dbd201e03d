use crate::options::{CommandKind, SdcOption, Seen};
use bud_base::Text;
use bud_syntax::{ObjectGroups, Objects, SdcCommand};
use text_scan::Round;

/// The unit of times in force.
#[derive(Clone, Copy)]
pub enum TimeUnit {
    Nanoseconds,
    Picoseconds,
}

/// What is fixed while the words of a command are read.
#[derive(Clone, Copy)]
pub struct Setting {
    pub unit: TimeUnit,
    pub kind: CommandKind,
    /// `-name` stands among the words, so that the first source doesn't name the clock.
    pub named: bool,
}

/// The first edges of a clock.
#[derive(Clone, Copy)]
pub struct Waveform {
    pub rise: i64,
    pub fall: i64,
}

/// What the words of a command have given so far.
#[derive(Drop)]
pub struct Given {
    pub seen: Seen,
    /// The variable's value, in `set`.
    pub version: bool,
    pub unit: Option<TimeUnit>,
    pub amount: Option<i64>,
    pub count: Option<u32>,
    pub name: Option<Text>,
    pub period: Option<i64>,
    pub waveform: Option<Waveform>,
    pub clock: Option<Text>,
    /// Sources or ports.
    pub objects: Option<Objects>,
    pub from: Option<Objects>,
    /// The groups of `-through`, in their order.
    pub through: ObjectGroups,
    pub to: Option<Objects>,
}

/// The same, and the option whose word comes next.
#[derive(Drop)]
pub struct Collected {
    pub given: Given,
    pub awaits: Option<SdcOption>,
}

/// A word that is no option and belongs to none.
#[derive(Clone, Copy)]
pub enum Slot {
    Time(Round),
    Count,
    Sources,
    Ports,
    Name,
    Version,
}

/// What a command does.
#[derive(Drop)]
pub enum Line {
    Nothing,
    Unit(TimeUnit),
    Design(Text),
    Timing(SdcCommand),
}
