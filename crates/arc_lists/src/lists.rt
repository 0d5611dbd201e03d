ghost use Rattle.std.specs.Prelude.{◌≡◌, ◌<◌, ◌++◌, ◌∷◌, [], length, replicate, slice_index_or, slice_set, IfOk, OnOk, OnErr};
ghost use Rattle.arc_lists.specs.KeyLists.{keys_at};

use bud_base::NodeId;
use smallvec::SmallVec;
use std::alloc::{AllocError, Global};
use std::marker::Model;

/// For each node the keys of the residual arcs that leave it. A few of a node need no memory of their own.
#[derive(Debug, Drop)]
pub struct ArcLists {
    lists: Vec<SmallVec<usize, 4>>,
}

impl Model for ArcLists {
    ghost use Rattle.std.specs.Prelude.{ℕ, List};

    ghost Value = { List (List ℕ) };

    ghost use Rattle.arc_lists.specs.Insides.{lists_of};

    ghost view = { lists_of };
}

impl ArcLists {
    /// An empty list for each of this many nodes.
    pub fn new(alloc: Global, nodes: usize) -> Result<ArcLists, AllocError>
        ensures { IfOk result (λ lists. lists ≡ replicate nodes []) }
    {
        let mut lists = Vec::with_capacity(alloc, nodes)?;
        let mut count = 0;
        'nodes: while count < nodes {
            lists.push(SmallVec::new(alloc))?;
            count += 1;
        }
        Ok(ArcLists { lists })
    }

    /// Appends a key to the list of a node. For want of memory nothing changes.
    pub fn push(&mut self, node: NodeId, key: usize) -> Result<(), AllocError>
        requires { node.0 < length self.old }
        ensures pushed { OnOk result (self.new ≡ slice_set self.old node.0 (keys_at self.old node.0 ++ key ∷ [])) }
        ensures same { OnErr result (self.new ≡ self.old) }
    {
        match self.lists[node.0 as usize].push(key) {
            Ok(()) => Ok(()),
            Err(_) => Err(AllocError),
        }
    }

    /// How many keys a node has.
    pub fn degree(&self, node: NodeId) -> usize
        requires { node.0 < length self.now }
        ensures { result ≡ length (keys_at self.now node.0) }
    {
        self.lists[node.0 as usize].len()
    }

    /// The key of a node at a place, from 0.
    pub fn key_at(&self, node: NodeId, place: usize) -> usize
        requires node { node.0 < length self.now }
        requires place { place < length (keys_at self.now node.0) }
        ensures { result ≡ slice_index_or (keys_at self.now node.0) place 0 }
    {
        self.lists[node.0 as usize].as_slice()[place]
    }
}
