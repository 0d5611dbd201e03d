ghost use Rattle.std.specs.Prelude.{◌≡◌, ◌^◌, ℕ, ◌<◌, length, All, IfOk};
ghost use Rattle.bud_syntax.specs.Ranges.{IsReadKind};
ghost use Rattle.bud_design.specs.Designs.{driver_of};
ghost use Rattle.bud_design.specs.TimingRules.{StartsInLeaf, IsSoundTiming};
ghost use Rattle.net_delays.specs.WireForests.{drive, pin_count};
ghost use Rattle.delay_bind.specs.Binding.{entries_in, IsTimingAnswer};
ghost use Rattle.delay_bind.specs.Bindings.{IsBindAnswer};
ghost use Rattle.delay_bind.specs.Leaves.{AreSoundEntries, StandsInLeaves};

use crate::entries::{EntryLists, entries};
use crate::faults::BindFault;
use crate::leaves::{judge_registers, pairs_of};
use crate::wires::{delays_of, forest_of};
use bud_design::Timing;
use bud_syntax::SdfFile;
use flat_design::Flat;
use net_delays::WireForest;
use registers::{PairTable, RegisterMarks, check_table, launch_edges};
use std::alloc::Global;

/// The timing that entries give, or the first refusal of a register, a pair or a wire.
fn timing_of(
    alloc: Global,
    flat: &Flat,
    forest: &WireForest,
    lists: &EntryLists,
) -> Result<Timing, BindFault>
    requires pins { pin_count forest.now ≡ length flat.now.pins }
    requires drives { (v : ℕ) → drive forest.now v ≡ driver_of flat.now.wires v }
    requires throughs { length lists.now.throughs.items < 2 ^ 32 }
    requires alongs { length lists.now.alongs.items < 2 ^ 32 }
    requires sound { AreSoundEntries flat.now (entries_in lists.now) }
    ensures { IsTimingAnswer flat.now (entries_in lists.now) result }
{
    let Ok(marks) = RegisterMarks::new(alloc, flat, &lists.throughs, &lists.setups) else {
        return Err(BindFault::NoMemory);
    };
    judge_registers(alloc, flat, lists, &marks)?;
    let PairTable { pairs, left_out } = pairs_of(alloc, flat, lists, &marks)?;
    let Ok(checks) = check_table(alloc, &lists.setups, &marks) else {
        return Err(BindFault::NoMemory);
    };
    let Ok(edges) = launch_edges(alloc, &marks, flat.pin_count()) else {
        return Err(BindFault::NoMemory);
    };
    let wires = delays_of(alloc, flat, forest, &lists.alongs)?;
    Ok(Timing {
        wires,
        pairs,
        checks,
        edges,
        left_out,
    })
}

/// What a delay file says of a flat design, or the first of its refusals: of rows in file order, of registers in order
/// of instances, of pairs in order of their pins, of wires in order of their last pins.
///
/// It takes time linear in rows, wires and pins but for the look-ups of names and for sorting.
pub fn bind(alloc: Global, flat: &Flat, sdf: &SdfFile) -> Result<Timing, BindFault>
    requires size { length sdf.now.rows < 2 ^ 31 }
    requires ranges { All (λ row. IsReadKind row.kind) sdf.now.rows }
    ensures answer { IsBindAnswer flat.now sdf.now.rows result }
    ensures sound { IfOk result (IsSoundTiming flat.now) }
    ensures pairs { IfOk result (λ timing. All (StartsInLeaf flat.now) timing.pairs) }
    ensures leaves { IfOk result (StandsInLeaves flat.now) }
{
    let _wires = flat.wires();
    let Ok(forest) = forest_of(alloc, flat) else {
        return Err(BindFault::NoMemory);
    };
    let lists = entries(alloc, flat, &forest, sdf.rows.as_slice())?;
    timing_of(alloc, flat, &forest, &lists)
}
