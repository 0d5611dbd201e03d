use bud_base::{ArcId, ClassId, Listed, PinId, Problem};
use bud_syntax::Edge;

/// An exception whose from-part is met, and how many of its groups are.
#[derive(Clone, Copy, Debug, PartialEq, Eq)]
pub struct Met {
    pub number: u32,
    pub steps: u32,
}

/// What the requirement of a path reads of its launch and of the pins that it passes.
#[derive(Debug, Drop)]
pub struct Class {
    pub clock: u32,
    pub edge: Edge,
    pub exceptions: MetList,
}

/// A pin in a class.
#[derive(Clone, Copy, Debug, PartialEq, Eq)]
pub struct LayerNode {
    pub pin: PinId,
    pub class: ClassId,
}

/// An arc in a class.
#[derive(Clone, Copy, Debug, PartialEq, Eq)]
pub struct LayerItem {
    pub arc: ArcId,
    pub class: ClassId,
}

/// The budgeting problem of a design, with what its nodes and items stand for.
#[derive(Debug, Drop)]
pub struct Layered {
    pub problem: Problem,
    pub classes: Classes,
    pub nodes: LayerNodes,
    pub items: LayerItems,
    /// The version of the policy.
    pub version: u32,
}

pub type MetList = Listed<Met>;

pub type Classes = Listed<Class>;

pub type LayerNodes = Listed<LayerNode>;

pub type LayerItems = Listed<LayerItem>;
