use bud_base::{Listed, PinId};

/// A delay along the wires that join two pins, in ps.
#[derive(Clone, Copy, Debug, PartialEq, Eq)]
pub struct Along {
    pub from: PinId,
    pub to: PinId,
    pub value: i64,
}

pub type Alongs = Listed<Along>;
