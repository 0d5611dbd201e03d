//! What a module is made of as it stands in the text.

use bud_base::{Listed, Text};
use bud_syntax::{Assigns, Dir, LinkList, Module, Range};

/// An identifier: its name, and the offset at which it begins.
#[derive(Debug, Drop)]
pub struct Named {
    pub name: Text,
    pub at: usize,
}

/// What a declaration says of a port.
#[derive(Clone, Copy, Debug)]
pub struct Declared {
    pub dir: Dir,
    pub range: Option<Range>,
}

/// A port in the header of a module.
#[derive(Debug, Drop)]
pub struct HeaderPort {
    pub named: Named,
    /// Its declaration, where one stands in the header before its name.
    pub declared: Option<Declared>,
}

/// An instance, without the name of its module.
#[derive(Debug, Drop)]
pub struct Cell {
    pub name: Text,
    pub links: LinkList,
}

pub type Names = Listed<Named>;

pub type Header = Listed<HeaderPort>;

pub type CellList = Listed<Cell>;

/// What stands in the body of a module.
#[derive(Debug, Drop)]
pub enum Item {
    /// Declarations of ports.
    Ports(Declared, Names),
    /// Declarations of nets; whether they are constant, their range and their names.
    Nets(bool, Option<Range>, Names),
    Assigns(Assigns),
    /// Instances of the module of this name.
    Cells(Text, CellList),
    /// What has no effect.
    Skipped,
}

/// What stands in the body of a module, in order.
pub type ItemList = Listed<Item>;

/// A module as it stands in the text.
#[derive(Debug, Drop)]
pub struct Tree {
    pub leaf: bool,
    pub name: Text,
    pub header: Header,
    pub items: ItemList,
}

/// The module that a tree makes.
#[derive(Debug, Drop)]
pub struct Assembled {
    pub module: Module,
    /// The port without a direction, or the name that is listed or declared twice, that begins first.
    pub fault: Option<Named>,
}
