use bud_base::Text;
use thiserror::Error;

/// Why a netlist has no flat design.
///
/// Modules and ports are named by the printed form of their identifier, nets and instances by their printed name, with
/// the path of the instance that holds them.
#[derive(Debug, Drop, Error)]
pub enum ElabFault {
    /// A module of this name stands before.
    #[error("module twice")]
    ModuleTwice(Text),
    /// The named top isn't there or is a cell, or each module is instantiated.
    #[error("no top")]
    NoTop(Option<Text>),
    /// No module instantiates these two, the first two in file order.
    #[error("many tops")]
    ManyTops(Text, Text),
    /// A plain instance stands this many levels below the top, one past the limit.
    #[error("too deep")]
    TooDeep(u64),
    /// The top, or a module that is instantiated, has this port of both directions.
    #[error("inout port")]
    InoutPort(Text),
    /// A port, net or instance of this name stands before in its module.
    #[error("name twice")]
    NameTwice(Text),
    /// The design counts this many net bits and pins, one past the limit.
    #[error("too large")]
    TooLarge(u64),
    /// An instance's module isn't in the netlist.
    #[error("unknown module")]
    UnknownModule(Text),
    /// A module is instantiated inside itself.
    #[error("recursive")]
    Recursive(Text),
    /// A link names a port that isn't there or is linked before, or there is a link too many: then the name is the instance's.
    #[error("unknown port")]
    UnknownPort(Text),
    /// A bit outside the net's range, or of a scalar, is selected.
    #[error("select")]
    Select(Text),
    /// The two sides of a link or an assign differ in width: the name is the port's, or that of the first net on an assign's left side.
    #[error("width")]
    Width(Text),
    /// More than one thing drives this net bit.
    #[error("two drivers")]
    TwoDrivers(Text),
    /// Want of memory.
    #[error("memory")]
    NoMemory,
}
