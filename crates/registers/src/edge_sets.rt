ghost use Rattle.std.specs.Prelude.{◌≡◌};
ghost use Rattle.registers.specs.Registers.{both_or, named_edge};
ghost use Rattle.registers.specs.Marks.{set_of, union, is_empty_set, or_else_set, only_edge};

use bud_syntax::Edge;

/// Some of the two edges.
#[derive(Clone, Copy, Debug)]
pub struct EdgeSet {
    pub rise: bool,
    pub fall: bool,
}

impl EdgeSet {
    /// No edge.
    pub const NONE: EdgeSet = EdgeSet {
        rise: false,
        fall: false,
    };

    /// The edge that is named, if one is.
    pub fn named(edge: Option<Edge>) -> EdgeSet
        ensures { result ≡ set_of (named_edge edge) }
    {
        match edge {
            None => EdgeSet::NONE,
            Some(Edge::Rise) => EdgeSet {
                rise: true,
                fall: false,
            },
            Some(Edge::Fall) => EdgeSet {
                rise: false,
                fall: true,
            },
        }
    }

    /// The edge that is named, or both where none is.
    pub fn named_or_both(edge: Option<Edge>) -> EdgeSet
        ensures { result ≡ set_of (both_or edge) }
    {
        match edge {
            None => EdgeSet {
                rise: true,
                fall: true,
            },
            Some(_) => EdgeSet::named(edge),
        }
    }

    /// The edges of either.
    pub fn with(self, other: EdgeSet) -> EdgeSet
        ensures { result ≡ union self other }
    {
        EdgeSet {
            rise: self.rise || other.rise,
            fall: self.fall || other.fall,
        }
    }

    pub fn is_empty(self) -> bool
        ensures { result ≡ is_empty_set self }
    {
        !self.rise && !self.fall
    }

    /// These edges, or else the others.
    pub fn or_else(self, others: EdgeSet) -> EdgeSet
        ensures { result ≡ or_else_set self others }
    {
        if self.is_empty() { others } else { self }
    }

    /// The edge, where there is just one.
    pub fn only(self) -> Option<Edge>
        ensures { result ≡ only_edge self }
    {
        match (self.rise, self.fall) {
            (true, false) => Some(Edge::Rise),
            (false, true) => Some(Edge::Fall),
            _ => None,
        }
    }
}
