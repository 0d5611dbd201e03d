ghost use Rattle.std.specs.Prelude.{◌≡◌, ◌<◌, map, length};
ghost use Rattle.std.specs.Option.{option_map};
ghost use Rattle.bud_design.specs.Arcs.{arc_at, arc_between};
ghost use Rattle.bud_design.specs.Designs.{Design};
ghost use Rattle.bud_design.specs.TimingRules.{IsDelay, IsSoundGraph};
ghost use Rattle.timing_graph.specs.GraphViews.{arc_of, AreRising, IsSomeGraph, IsPlaceFor};
ghost use Rattle.timing_graph.specs.Graphs.{with_least};

use bud_base::{ArcId, Listed, PinId};
use bud_design::PinList;
use std::marker::Model;

/// An arc, with its least delay in ps and the place that it belongs to.
#[derive(Clone, Copy, Debug, PartialEq, Eq)]
pub struct Arc {
    pub from: PinId,
    pub to: PinId,
    pub least: i64,
    pub home: u32,
}

pub type Arcs = Listed<Arc>;

/// The arcs of a flat design in order of their pairs of pins, and an order of the pins that they follow.
#[derive(Debug, Drop)]
pub struct Graph {
    arcs: Arcs,
    order: PinList,
}

impl Model for Graph {
    ghost use Rattle.std.specs.Prelude.{map};
    ghost use Rattle.bud_design.specs.Arcs.{Graph as GraphOf};
    ghost use Rattle.timing_graph.specs.GraphViews.{arc_of, IsSomeGraph};

    ghost Value = { GraphOf };

    ghost view = { λ g. record { arcs = map arc_of g.arcs; order = g.order } };

    ghost invariant = { λ g. IsSomeGraph (record { arcs = map arc_of g.arcs; order = g.order }) };
}

/// How many arcs come before a pair of pins.
fn place_of(arcs: &[Arc], from: PinId, to: PinId) -> usize
    requires { AreRising arcs.now }
    ensures { IsPlaceFor arcs.now from.0 to.0 result }
{
    arcs.partition_point(|arc| { arc.from.0 < from.0 || (arc.from.0 == from.0 && arc.to.0 < to.0) })
}

impl Graph {
    /// The graph of these arcs and this order.
    pub fn of(arcs: Arcs, order: PinList) -> Graph
        requires { IsSomeGraph (record { arcs = map arc_of arcs; order = order }) }
        ensures { result ≡ record { arcs = map arc_of arcs; order = order } }
    {
        Graph { arcs, order }
    }

    /// How many arcs there are.
    pub fn count(&self) -> u32
        ensures value { result ≡ length self.now.arcs }
        ensures few { result < 2147483648 }
    {
        self.arcs.len() as u32
    }

    /// The pin that the arc begins at.
    pub fn from(&self, arc: ArcId) -> PinId
        requires { arc.0 < length self.now.arcs }
        ensures { result.0 ≡ (arc_at self.now.arcs arc.0).from }
    {
        self.arcs.as_slice()[arc.0 as usize].from
    }

    /// The pin that the arc ends at.
    pub fn to(&self, arc: ArcId) -> PinId
        requires { arc.0 < length self.now.arcs }
        ensures { result.0 ≡ (arc_at self.now.arcs arc.0).to }
    {
        self.arcs.as_slice()[arc.0 as usize].to
    }

    /// The arc's least delay, in ps.
    pub fn least(&self, arc: ArcId) -> i64
        requires { arc.0 < length self.now.arcs }
        ensures { result ≡ (arc_at self.now.arcs arc.0).least }
    {
        self.arcs.as_slice()[arc.0 as usize].least
    }

    /// The number of the place that the arc belongs to.
    pub fn home(&self, arc: ArcId) -> u32
        requires { arc.0 < length self.now.arcs }
        ensures { result ≡ (arc_at self.now.arcs arc.0).home }
    {
        self.arcs.as_slice()[arc.0 as usize].home
    }

    /// The pins, each once, in an order that every arc follows.
    pub fn order(&self) -> &[PinId]
        ensures { result.now ≡ self.now.order }
    {
        self.order.as_slice()
    }

    /// The arc of two pins, in logarithmic time; None where no arc joins them.
    pub fn find(&self, from: PinId, to: PinId) -> Option<ArcId>
        ensures { option_map (λ a. a.0) result ≡ arc_between self.now.arcs from.0 to.0 }
    {
        let place = place_of(self.arcs.as_slice(), from, to);
        if place == self.arcs.len() {
            return None;
        }
        let arc = self.arcs.as_slice()[place];
        if arc.from.0 == from.0 && arc.to.0 == to.0 {
            Some(ArcId(place as u32))
        } else {
            None
        }
    }

    /// Changes the least delay of one arc, in ps from 0 to 10^9, and nothing else.
    pub fn set_least(&mut self, arc: ArcId, least: i64)
        requires arc { arc.0 < length self.old.arcs }
        requires delay { IsDelay least }
        ensures arcs { self.new.arcs ≡ with_least self.old.arcs arc.0 least }
        ensures order { self.new.order ≡ self.old.order }
        ensures sound { (d : Design) → IsSoundGraph d self.old → IsSoundGraph d self.new }
    {
        let place = arc.0 as usize;
        let old = self.arcs.as_slice()[place];
        let new = Arc {
            from: old.from,
            to: old.to,
            least,
            home: old.home,
        };
        self.arcs.set(place, new);
    }
}
