use bud_base::NodeId;

/// How a search reached a node.
#[derive(Clone, Copy, Debug)]
pub struct Entry {
    /// How far the node is, in ps.
    pub distance: i64,
    /// The residual arc by which it was reached; none where the search began.
    pub by: Option<usize>,
    /// How many nodes were taken before it, once it is taken.
    pub place: Option<usize>,
}

/// A node, and how far it is in ps.
#[derive(Clone, Copy, Debug)]
pub struct Near {
    pub node: NodeId,
    pub distance: i64,
}
