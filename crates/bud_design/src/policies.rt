use bud_base::{Listed, Text};
use bud_syntax::SdcCommand;

/// A line of a policy: a block, or the extra and the weight of the arcs that it names, of all classes or of a clock's.
#[derive(Debug, Drop)]
pub enum PolicyLine {
    Block(Text),
    Default {
        extra: i64,
        weight: u32,
        clock: Option<Text>,
    },
    Inst {
        path: Text,
        extra: i64,
        weight: u32,
        clock: Option<Text>,
    },
    Arc {
        from: Text,
        to: Text,
        extra: i64,
        weight: u32,
        clock: Option<Text>,
    },
}

#[derive(Debug, Drop)]
pub struct Policy {
    pub version: u32,
    pub lines: PolicyLines,
}

/// A change of a design's timing.
#[derive(Debug, Drop)]
pub enum Edit {
    Delay { from: Text, to: Text, amount: i64 },
    Add(SdcCommand),
    Drop(u32),
    Line(PolicyLine),
}

/// A timing command with its number.
#[derive(Debug, Drop)]
pub struct NumberedCommand {
    pub number: u32,
    pub command: SdcCommand,
}

pub type PolicyLines = Listed<PolicyLine>;

pub type Numbered = Listed<NumberedCommand>;
