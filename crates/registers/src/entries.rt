use bud_base::{Listed, PinId};
use bud_syntax::Edge;

/// A delay through a leaf, in ps, from the edge where one is named.
#[derive(Clone, Copy, Debug)]
pub struct Through {
    pub from: PinId,
    pub edge: Option<Edge>,
    pub to: PinId,
    pub value: i64,
}

/// A setup check, in ps, for each edge of the clock where none is named.
#[derive(Clone, Copy, Debug)]
pub struct Setup {
    pub pin: PinId,
    pub clock: PinId,
    pub edge: Option<Edge>,
    pub value: i64,
}

pub type Throughs = Listed<Through>;

pub type Setups = Listed<Setup>;
