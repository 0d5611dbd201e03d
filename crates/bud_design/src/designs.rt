use bud_base::{Listed, PinId, Text};
use bud_syntax::Dir;

/// An instance of the flat design, or its top.
#[derive(Debug, Drop)]
pub struct Place {
    /// The instance's identifier in printed form; empty for the top.
    pub name: Text,
    /// The module's identifier in printed form.
    pub module: Text,
    pub leaf: bool,
    /// The number of the place that it stands in; None for the top.
    pub parent: Option<u32>,
}

/// A port bit of a place.
#[derive(Debug, Drop)]
pub struct Pin {
    pub place: u32,
    /// The port's identifier in printed form.
    pub port: Text,
    /// None: the port is a scalar.
    pub bit: Option<u32>,
    pub dir: Dir,
}

/// A wire, from the driver of a net bit to a load of it.
#[derive(Clone, Copy, Debug, PartialEq, Eq)]
pub struct Wire {
    pub from: PinId,
    pub to: PinId,
    /// The place that holds the net.
    pub home: u32,
}

pub type Places = Listed<Place>;

pub type Pins = Listed<Pin>;

pub type Wires = Listed<Wire>;

/// Pins in the order in which they were named.
pub type PinList = Listed<PinId>;
