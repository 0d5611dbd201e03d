use crate::edges::Edge;
use bud_base::{Listed, Text};

/// The delays and setup checks of a delay file (IEEE 1497), in the order of its text.
#[derive(Debug, Drop)]
pub struct SdfFile {
    pub rows: SdfRows,
}

/// An entry of a delay file.
#[derive(Debug, Drop)]
pub struct SdfRow {
    /// The type of the cell that the entry stands in.
    pub cell: Text,
    /// The printed name of the instance that the entry stands in; empty for the top.
    pub instance: Text,
    pub kind: SdfKind,
}

/// What an entry says. The names in it are printed ones, relative to the instance, and the values are in ps.
#[derive(Debug, Drop)]
pub enum SdfKind {
    /// A cell's entry begins; it stands before the cell's other rows.
    Cell,
    /// A delay through the cell, from the edge of `from` where one is given.
    Delay {
        from: Text,
        edge: Option<Edge>,
        to: Text,
        value: i64,
    },
    /// A delay along the wires that join two pins.
    Wire {
        from: Text,
        to: Text,
        value: i64,
    },
    /// How long before the edge of `clock`, or before each where none is given, the data at `pin` must be stable.
    Setup {
        pin: Text,
        clock: Text,
        edge: Option<Edge>,
        value: i64,
    },
}

pub type SdfRows = Listed<SdfRow>;
