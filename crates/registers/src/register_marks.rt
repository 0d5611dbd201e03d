ghost use Rattle.std.specs.Prelude.{◌≡◌, ◌&&◌, not, length, All, IfOk};
ghost use Rattle.registers.specs.Marks.{mark_at, set_at, or_else_set, only_edge, IsSetupWithin, IsThroughWithin};
ghost use Rattle.registers.specs.RegisterMarks.{AreMarks};

use crate::edge_sets::EdgeSet;
use crate::entries::{Setup, Through};
use crate::marks::{put_check_edges, put_checked, put_clocks, put_named_edges, put_registers};
use bud_base::PinId;
use bud_syntax::Edge;
use flat_design::Flat;
use std::alloc::{AllocError, Global};

/// What the entries of a delay file say of each pin and instance.
#[derive(Debug, Drop)]
pub struct RegisterMarks {
    /// The clock pins.
    pub clocks: Vec<bool>,
    /// The checked pins, clock pins among them.
    pub checked: Vec<bool>,
    /// The instances that are registers.
    pub registers: Vec<bool>,
    /// The edges that delays from each pin name.
    pub named: Vec<EdgeSet>,
    /// The edges that checks by each pin count for.
    pub edges: Vec<EdgeSet>,
}

impl RegisterMarks {
    /// The marks that these delays and checks make.
    pub fn new(
        alloc: Global,
        flat: &Flat,
        throughs: &[Through],
        setups: &[Setup],
    ) -> Result<RegisterMarks, AllocError>
        requires throughs { All (IsThroughWithin (length flat.now.pins)) throughs.now }
        requires setups { All (IsSetupWithin (length flat.now.pins)) setups.now }
        ensures { IfOk result (AreMarks flat.now throughs.now setups.now) }
    {
        let pins = flat.pins();
        let mut clocks = vec![in alloc; false; pins.len()]?;
        put_clocks(setups, &mut clocks);
        let mut checked = vec![in alloc; false; pins.len()]?;
        put_checked(setups, &mut checked);
        let mut registers = vec![in alloc; false; flat.places().len()]?;
        put_registers(pins, setups, &mut registers);
        let mut named = vec![in alloc; EdgeSet::NONE; pins.len()]?;
        put_named_edges(throughs, &mut named);
        let mut edges = vec![in alloc; EdgeSet::NONE; pins.len()]?;
        put_check_edges(setups, &mut edges);
        Ok(RegisterMarks {
            clocks,
            checked,
            registers,
            named,
            edges,
        })
    }
}
