use bud_base::{Listed, Text};

/// The direction of a port.
#[derive(Clone, Copy, Debug, PartialEq, Eq, PartialOrd, Ord, Hash)]
pub enum Dir {
    Input,
    Output,
    Inout,
}

/// The bounds of a vector, `[left:right]`; its bits are taken from left to right.
#[derive(Clone, Copy, Debug, PartialEq, Eq, PartialOrd, Ord, Hash)]
pub struct Range {
    pub left: u32,
    pub right: u32,
}

/// A port of a module.
#[derive(Debug, Drop)]
pub struct Port {
    pub name: Text,
    pub dir: Dir,
    /// None: the port is a scalar.
    pub range: Option<Range>,
}

/// A declared net of a module that isn't one of its ports.
#[derive(Debug, Drop)]
pub struct NetDecl {
    pub name: Text,
    /// None: the net is a scalar.
    pub range: Option<Range>,
    /// Whether it is declared as `supply0` or `supply1`.
    pub constant: bool,
}

/// A piece of an expression.
#[derive(Debug, Drop)]
pub enum Piece {
    /// A whole net.
    Net(Text),
    /// One bit of a net.
    Bit(Text, u32),
    /// The bits of a net from the first number to the second.
    Part(Text, u32, u32),
    /// A constant of so many bits.
    Const(u32),
}

/// What one link of an instance joins to a port; with no pieces the port is open.
#[derive(Debug, Drop)]
pub enum Link {
    /// To the port of this name.
    Named(Text, Pieces),
    /// To the port at the link's place.
    Placed(Pieces),
}

/// An instance of a module.
#[derive(Debug, Drop)]
pub struct Instance {
    /// The name of the module.
    pub module: Text,
    pub name: Text,
    /// All Named, or all Placed.
    pub links: LinkList,
}

/// A continuous assignment: what drives the right side drives the left.
#[derive(Debug, Drop)]
pub struct Assign {
    /// Not empty, and without a constant.
    pub left: Pieces,
    pub right: Pieces,
}

/// A module of a netlist. Names are those of the identifiers, without an escaped one's backslash.
#[derive(Debug, Drop)]
pub struct Module {
    pub name: Text,
    /// Whether it is a cell: one between `` `celldefine `` and `` `endcelldefine ``.
    pub leaf: bool,
    /// In the order of the module's header.
    pub ports: Ports,
    pub nets: Nets,
    pub assigns: Assigns,
    pub instances: Instances,
}

/// The pieces of an expression, the leftmost first.
pub type Pieces = Listed<Piece>;

/// The links of an instance.
pub type LinkList = Listed<Link>;

pub type Ports = Listed<Port>;

pub type Nets = Listed<NetDecl>;

pub type Assigns = Listed<Assign>;

pub type Instances = Listed<Instance>;

/// The modules of a netlist, in file order.
pub type Modules = Listed<Module>;
