//! What netlists, delay files and constraint texts say, before any name is looked up: the values that the readers give.
#![tactic(auto)]

mod constraints;
mod delays;
mod edges;
mod modules;

pub use constraints::{Object, ObjectGroups, Objects, SdcCommand, SdcCommands, SdcFile};
pub use delays::{SdfFile, SdfKind, SdfRow, SdfRows};
pub use edges::Edge;
pub use modules::{
    Assign, Assigns, Dir, Instance, Instances, Link, LinkList, Module, Modules, NetDecl, Nets,
    Piece, Pieces, Port, Ports, Range,
};
