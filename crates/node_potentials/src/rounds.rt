ghost use Rattle.std.specs.Prelude.{◌≡◌, ◌≢◌, ℕ, ◌+◌, ◌<◌, ◌≤◌, false, true, length, slice_set, IfOk};
ghost use Rattle.bud_flow.specs.Sums.{number_at};
ghost use Rattle.node_potentials.specs.Moves.{flag_at, AreNoted, AreSame};

use bud_base::NodeId;
use std::alloc::{AllocError, Global};
use std::marker::Model;

/// The potentials of nodes, in ps, and those that were kept last.
///
/// `keep` takes as long as there are nodes whose potential moved since.
#[derive(Debug, Drop)]
pub struct Potentials {
    kept: Vec<i64>,
    present: Vec<i64>,
    /// Whether the potential of a node moved since the last were kept.
    is_moved: Vec<bool>,
    /// The nodes whose potential did, in the first places.
    moved: Vec<NodeId>,
    count: usize,
}

impl Model for Potentials {
    ghost use Rattle.node_potentials.specs.Rounds.{Round};

    ghost Value = { Round };

    ghost use Rattle.node_potentials.specs.Insides.{round_of, IsKeeping};

    ghost view = { round_of };

    ghost invariant = { IsKeeping };
}

/// Notes that the potential of a node moves, and answers how many have.
fn note(is_moved: &mut [bool], moved: &mut [NodeId], count: usize, node: NodeId) -> usize
    requires noted { AreNoted is_moved.old moved.old count }
    requires node { node.0 < length is_moved.old }
    ensures noted { AreNoted is_moved.new moved.new result }
    ensures here { flag_at is_moved.new node.0 ≡ true }
    ensures others { (v : ℕ) → v ≢ node.0 → flag_at is_moved.new v ≡ flag_at is_moved.old v }
{
    let place = node.0 as usize;
    if is_moved[place] {
        return count;
    }
    is_moved[place] = true;
    moved[count] = node;
    count + 1
}

/// The potential at a place.
fn potential_at(potentials: &[i64], place: usize) -> i64
    requires { place < length potentials.now }
    ensures { result ≡ number_at potentials.now place }
{
    potentials[place]
}

/// Keeps the potentials of the nodes that moved, after which none has.
fn keep_moved(
    kept: &mut [i64],
    present: &[i64],
    is_moved: &mut [bool],
    moved: &[NodeId],
    count: usize,
)
    requires noted { AreNoted is_moved.old moved.now count }
    requires same { AreSame kept.old present.now is_moved.old }
    requires kept { length kept.old ≡ length is_moved.old }
    requires present { length present.now ≡ length is_moved.old }
    ensures kept { kept.new ≡ present.now }
    ensures none { (v : ℕ) → flag_at is_moved.new v ≡ false }
{
    for place in 0..count {
        let node = moved[place].0 as usize;
        kept[node] = potential_at(present, node);
        is_moved[node] = false;
    }
}

/// The same potentials once more.
fn copied(alloc: Global, potentials: &[i64]) -> Result<Vec<i64>, AllocError>
    ensures { IfOk result (λ copy. copy.items ≡ potentials.now) }
{
    potentials.iter().copied().collect(alloc)
}

impl Potentials {
    /// Potentials that are kept.
    pub fn new(alloc: Global, potentials: Vec<i64>) -> Result<Potentials, AllocError>
        ensures kept { IfOk result (λ round. round.kept ≡ potentials.items) }
        ensures present { IfOk result (λ round. round.present ≡ potentials.items) }
    {
        let nodes = potentials.len();
        let kept = copied(alloc, &potentials)?;
        let is_moved = vec![in alloc; false; nodes]?;
        let moved = vec![in alloc; NodeId(0); nodes]?;
        Ok(Potentials {
            kept,
            present: potentials,
            is_moved,
            moved,
            count: 0,
        })
    }

    /// The potential of a node, in ps.
    pub fn potential_of(&self, node: NodeId) -> i64
        requires { node.0 < length self.now.present }
        ensures { result ≡ number_at self.now.present node.0 }
    {
        potential_at(&self.present, node.0 as usize)
    }

    /// Moves the potential of a node to another, in ps.
    pub fn put(&mut self, node: NodeId, potential: i64)
        requires { node.0 < length self.old.present }
        ensures { self.new ≡ record self.old { present = slice_set self.old.present node.0 potential } }
    {
        self.count = note(&mut self.is_moved, &mut self.moved, self.count, node);
        let place = node.0 as usize;
        self.present[place] = potential;
    }

    /// Keeps the potentials of now.
    pub fn keep(&mut self)
        ensures { self.new ≡ record self.old { kept = self.old.present } }
    {
        keep_moved(
            &mut self.kept,
            &self.present,
            &mut self.is_moved,
            &self.moved,
            self.count,
        );
        self.count = 0;
    }
}
