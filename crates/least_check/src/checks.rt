ghost use Rattle.std.specs.Prelude.{◌≡◌, ◌↔◌, length, IsTrue, IfOk};
ghost use Rattle.bud_base.specs.Soundness.{IsSound};
ghost use Rattle.least_check.specs.Checkers.{FitsSizes, KeepsSizes};
ghost use Rattle.least_check.specs.Least.{IsLeastAnswer, KeepsWorst, judgement};

use crate::arrivals::Arrival;
use crate::worst_paths::{WorstPath, worst_path};
use bud_base::{ItemId, NodeOrder, Problem};
use std::alloc::{AllocError, Global};
use std::marker::Model;

/// Whether a problem meets its required times at least delays, and its least slack, in ps.
#[derive(Clone, Copy, Debug, PartialEq, Eq)]
pub enum Least {
    /// No path leads from a start to an end.
    NoPaths,
    /// The least slack, which is at least 0.
    Meets(i64),
    /// The least slack, which is below 0.
    Violated(i64),
}

/// Finds the least slack of problems up to a size, and keeps a path of that slack.
///
/// All memory is taken by `new`.
#[derive(Debug, Drop)]
pub struct LeastCheck {
    order: NodeOrder,
    arrivals: Vec<Option<Arrival>>,
    path: Vec<ItemId>,
    begin: usize,
    start: u32,
    end: u32,
}

impl Model for LeastCheck {
    ghost use Rattle.std.specs.Prelude.{◌≡◌, ◌≤◌, length, drop};
    ghost use Rattle.bud_base.specs.OrderLists.{node_room, item_room};
    ghost use Rattle.least_check.specs.Checkers.{Checker};

    ghost Value = { Checker };

    ghost view = { λ c. record { nodes = node_room c.order; items = item_room c.order; path = record { start = c.start; items = drop c.begin c.path.items; end = c.end } } };

    ghost invariant = { λ c. (length c.arrivals.items ≡ node_room c.order) × (length c.path.items ≡ node_room c.order) × (c.begin ≤ length c.path.items) };
}

impl LeastCheck {
    /// Takes all memory that checking this problem needs, some 52 bytes a node and 8 bytes an item.
    pub fn new(alloc: Global, problem: &Problem) -> Result<LeastCheck, AllocError>
        ensures nodes { IfOk result (λ check. check.nodes ≡ problem.now.nodes) }
        ensures items { IfOk result (λ check. check.items ≡ length problem.now.items) }
    {
        let nodes = problem.nodes;
        let order = NodeOrder::new(alloc, nodes, problem.items.len())?;
        let arrivals = vec![in alloc; None; nodes as usize]?;
        let path = vec![in alloc; ItemId(0); nodes as usize]?;
        Ok(LeastCheck {
            order,
            arrivals,
            path,
            begin: 0,
            start: 0,
            end: 0,
        })
    }

    /// Whether there is room for the problem.
    pub fn fits(&self, problem: &Problem) -> bool
        ensures { IsTrue result ↔ FitsSizes self.now problem.now }
    {
        self.order.fits(problem.nodes, problem.items.len())
    }

    /// Finds the least slack of the problem's paths at least delays, in time linear in the room for nodes, the items,
    /// the starts and the ends.
    ///
    /// Where there is a path, one of the least slack is kept.
    pub fn run(&mut self, problem: &Problem) -> Least
        requires sound { IsSound problem.now }
        requires sizes { FitsSizes self.old problem.now }
        ensures answer { IsLeastAnswer problem.now result }
        ensures worst { KeepsWorst problem.now self.new.path result }
        ensures sizes { KeepsSizes self.old self.new }
    {
        let ordered = self.order.find(problem.nodes, problem.items.as_slice());
        prove!(ordered);
        let worst = worst_path(
            problem,
            self.order.nodes(),
            self.order.links(),
            &mut self.arrivals,
            &mut self.path,
        );
        match worst {
            None => Least::NoPaths,
            Some(worst) => {
                self.begin = worst.begin;
                self.start = worst.start;
                self.end = worst.end;
                judged(worst)
            }
        }
    }

    /// The items of the path that was kept last.
    pub fn worst(&self) -> &[ItemId]
        ensures { result.now ≡ self.now.path.items }
    {
        &self.path[self.begin..]
    }

    /// The numbers of the start and the end of the path that was kept last.
    pub fn ends(&self) -> (u32, u32)
        ensures start { result.0 ≡ self.now.path.start }
        ensures end { result.1 ≡ self.now.path.end }
    {
        (self.start, self.end)
    }
}

/// What the path's slack says.
fn judged(worst: WorstPath) -> Least
    ensures { result ≡ judgement worst.slack }
{
    if worst.slack < 0 {
        Least::Violated(worst.slack)
    } else {
        Least::Meets(worst.slack)
    }
}
