ghost use Rattle.std.specs.Prelude.{◌≡◌, ℕ, ◌<◌, ◌+◌, ◌≤ℤ◌, ◌+ℤ◌, ◌-ℤ◌, ◌^◌, ◌↔◌, pos, false, true, length, slice_index_or, slice_set, IsTrue, IfOk};
ghost use Rattle.bud_flow.specs.Sums.{number_at};

use crate::adjacency::lists_of;
use crate::arcs::{
    Arc, Look, add_at, arcs_of, excesses_of, first_flows, forward_amount, look_at, move_excess,
    number_in,
};
use crate::arrivals::first_arrivals;
use crate::comparisons::{are_ends, are_limited, are_open, are_starts};
use crate::walks::{Way, no_ways, trim_flows};
use arc_lists::ArcLists;
use bud_base::{ItemId, NodeId, Problem, Steps};
use node_potentials::Potentials;
use std::alloc::{AllocError, Global};
use std::marker::Model;
use std::sync::ledger::Ledger;

/// A residual network: nodes and a root, and for each item, start and end its arcs with their flows.
#[derive(Debug, Drop)]
pub struct Net {
    nodes: u32,
    items: usize,
    starts: usize,
    ends: usize,
    arcs: Vec<Arc>,
    flows: Vec<i128>,
    excess: Vec<i128>,
    /// The residual arcs that leave each node and the root.
    lists: ArcLists,
    potentials: Potentials,
    is_open: bool,
    /// Room for the marks of `trim`, one a node and one for the root.
    ways: Vec<Option<Way>>,
}

impl Model for Net {
    ghost use Rattle.residual.specs.Networks.{Network};

    ghost Value = { Network };

    ghost use Rattle.residual.specs.Insides.{network_of, IsKeeping};

    ghost view = { network_of };

    ghost invariant = { IsKeeping };
}

impl Net {
    ghost use Rattle.bud_base.specs.Paths.{Meets, least_of};
    ghost use Rattle.bud_base.specs.Soundness.{IsSound};
    ghost use Rattle.bud_flow.specs.Arrivals.{Suit};
    ghost use Rattle.residual.specs.Arcs.{reduced_cost};
    ghost use Rattle.residual.specs.Bounds.{IsSmall, IsWithin};
    ghost use Rattle.residual.specs.Balances.{HasNoExcess, HasRoom, total_start_flow, total_weight};
    ghost use Rattle.residual.specs.Excesses.{flows_after};
    ghost use Rattle.residual.specs.Leaving.{leaving};
    ghost use Rattle.residual.specs.Networks.{IsKey, residual, IsLawful, AreReduced, excess_at, item_flow_at, start_flow_at, end_flow_at, Fits, IsFresh};
    ghost use Rattle.residual.specs.Trims.{AreLess, KeepsLimited, HasNoSurplus, total_limit};

    /// The network of a problem, with arrivals as its potentials that share the slack of each node.
    pub fn new(alloc: Global, problem: &Problem) -> Result<Net, AllocError>
        requires sound { IsSound problem.now }
        requires meets { Meets problem.now }
        ensures fits { IfOk result (λ net. Fits net problem.now) }
        ensures suit { IfOk result (λ net. Suit problem.now (least_of problem.now) (number_at net.potentials)) }
        ensures fresh { IfOk result (λ net. IsFresh problem.now net) }
        ensures lawful { IfOk result (λ net. IsLawful net) }
    {
        let items = problem.items.as_slice();
        let starts = problem.starts.as_slice();
        let ends = problem.ends.as_slice();
        let arrivals = first_arrivals(alloc, problem)?;
        let arcs = arcs_of(alloc, NodeId(problem.nodes), items, starts, ends)?;
        let flows = first_flows(alloc, &arrivals, items, starts, ends)?;
        let excess = excesses_of(alloc, problem.nodes as usize + 1, &arcs, &flows)?;
        let lists = lists_of(alloc, problem.nodes as usize + 1, &arcs)?;
        let ways = no_ways(alloc, problem.nodes as usize + 1)?;
        let potentials = Potentials::new(alloc, arrivals)?;
        Ok(Net {
            nodes: problem.nodes,
            items: items.len(),
            starts: starts.len(),
            ends: ends.len(),
            arcs,
            flows,
            excess,
            lists,
            potentials,
            is_open: false,
            ways,
        })
    }

    /// Whether the network's nodes, items, starts and ends are those of the problem.
    pub fn fits(&self, problem: &Problem) -> bool
        ensures { IsTrue result ↔ Fits self.now problem.now }
    {
        let items = problem.items.as_slice();
        let starts = problem.starts.as_slice();
        let ends = problem.ends.as_slice();
        if self.nodes != problem.nodes
            || self.items != items.len()
            || self.starts != starts.len()
            || self.ends != ends.len()
        {
            return false;
        }
        let root = NodeId(self.nodes);
        let first = self.items + self.items;
        are_limited(&self.arcs, items)
            && are_open(&self.arcs, self.items, items)
            && are_starts(&self.arcs, first, root, starts)
            && are_ends(&self.arcs, first + self.starts, root, ends)
    }

    /// How many residual arcs leave the node, whether they have room or not.
    pub fn degree(&self, node: NodeId) -> usize
        requires { node.0 < self.now.nodes + 1 }
        ensures { result ≡ length (leaving self.now node.0) }
    {
        self.lists.degree(node)
    }

    /// The key of a residual arc that leaves the node, by its place from 0.
    pub fn arc_at(&self, node: NodeId, place: usize) -> usize
        requires node { node.0 < self.now.nodes + 1 }
        requires place { place < length (leaving self.now node.0) }
        ensures { result ≡ slice_index_or (leaving self.now node.0) place 0 }
    {
        self.lists.key_at(node, place)
    }

    /// Looks at a residual arc, which is a step.
    pub fn look<L: Ledger>(&self, arc: usize, steps: &mut Steps<L>) -> Look
        requires { IsKey self.now arc }
        ensures look { result ≡ residual self.now arc }
        ensures from { result.from.0 < self.now.nodes + 1 }
        ensures to { result.to.0 < self.now.nodes + 1 }
        ensures cost { IsSmall result.cost }
        ensures room { IsWithin (pos (2 ^ 80)) result.room }
        ensures lawful { IsLawful self.now }
        ensures steps { steps.new ≡ steps.old + 1 }
    {
        steps.tick();
        look_at(&self.arcs, &self.flows, arc)
    }

    /// The flow into the node less the flow out of it.
    pub fn excess(&self, node: NodeId) -> i128
        requires { node.0 < self.now.nodes + 1 }
        ensures excess { result ≡ excess_at self.now node.0 }
        ensures small { IsWithin (pos (2 ^ 113)) result }
        ensures lawful { IsLawful self.now }
    {
        number_in(&self.excess, node.0 as usize)
    }

    /// The potential of a node, with the lifts of the open round, in ps.
    pub fn potential(&self, node: NodeId) -> i64
        requires { node.0 < self.now.nodes + 1 }
        ensures potential { result ≡ number_at self.now.potentials node.0 }
        ensures small { IsSmall result }
        ensures lawful { IsLawful self.now }
    {
        self.potentials.potential_of(node)
    }

    /// The flow over the item's two arcs.
    pub fn item_flow(&self, item: ItemId) -> i128
        requires { item.0 < self.now.items }
        ensures { result ≡ item_flow_at self.now item.0 }
    {
        let place = item.0 as usize;
        self.flows[place] + self.flows[self.items + place]
    }

    /// The flow of a start, by its number.
    pub fn start_flow(&self, number: u32) -> i128
        requires { number < self.now.starts }
        ensures { result ≡ start_flow_at self.now number }
    {
        self.flows[self.items + self.items + number as usize]
    }

    /// The flow of an end, by its number.
    pub fn end_flow(&self, number: u32) -> i128
        requires { number < self.now.ends }
        ensures { result ≡ end_flow_at self.now number }
    {
        self.flows[self.items + self.items + self.starts + number as usize]
    }

    /// Lifts one node's potential by this many ps, which opens a round.
    pub fn lift(&mut self, node: NodeId, by: i64)
        requires node { node.0 < self.old.nodes }
        requires small { IsSmall (number_at self.old.potentials node.0 +ℤ by) }
        ensures lifted { self.new ≡ record self.old { potentials = slice_set self.old.potentials node.0 (number_at self.old.potentials node.0 +ℤ by); is_open = true } }
        ensures lawful { IsLawful self.new }
    {
        let lifted = self.potentials.potential_of(node) + by;
        self.potentials.put(node, lifted);
        self.is_open = true;
    }

    /// Sends an amount over a residual arc, and closes the round: the potentials are kept.
    pub fn push(&mut self, arc: usize, amount: i128)
        requires key { IsKey self.old arc }
        requires reduced { AreReduced self.old self.old.potentials }
        requires tight { reduced_cost self.old.potentials (residual self.old arc) ≡ pos 0 }
        requires least { pos 0 ≤ℤ amount }
        requires room { amount ≤ℤ (residual self.old arc).room }
        ensures pushed { self.new ≡ record self.old { flows = flows_after self.old.flows arc amount; kept = self.old.potentials; is_open = false } }
        ensures lawful { IsLawful self.new }
    {
        self.potentials.keep();
        self.is_open = false;
        let pair = arc / 2;
        let amount = forward_amount(arc, amount);
        add_at(&mut self.flows, pair, amount);
        move_excess(&mut self.excess, &self.arcs, pair, amount);
    }

    /// Takes off the surpluses: as long as there is a path with flow on the arcs of its start and of its end and on the arcs without limit
    /// of its items, the least of these flows is taken off them all.
    ///
    /// It changes nothing but flows, takes no memory and is no step. Where the network fits a problem, the flows of the starts together
    /// are then at most the sum of the weights.
    pub fn trim(&mut self)
        requires balanced { HasNoExcess self.old }
        requires room { HasRoom self.old }
        ensures same { self.new ≡ record self.old { flows = self.new.flows } }
        ensures less { AreLess self.old.flows self.new.flows }
        ensures limited { KeepsLimited self.old self.new.flows }
        ensures loss { (arc : ℕ) → (number_at self.old.flows arc -ℤ number_at self.new.flows arc) ≤ℤ (total_start_flow self.old -ℤ total_start_flow self.new) }
        ensures balanced { HasNoExcess self.new }
        ensures none { HasNoSurplus self.new }
        ensures kept { HasNoSurplus self.old → self.new.flows ≡ self.old.flows }
        ensures starts { total_start_flow self.new ≤ℤ total_limit self.new }
        ensures weights { (p : Problem) → Fits self.old p → total_start_flow self.new ≤ℤ total_weight p }
        ensures lawful { IsLawful self.new }
    {
        let first = self.items + self.items;
        let root = NodeId(self.nodes);
        trim_flows(
            &self.arcs,
            &mut self.flows,
            &mut self.ways,
            root,
            self.items,
            first,
            first + self.starts,
        );
    }
}
