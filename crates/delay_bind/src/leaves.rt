ghost use Rattle.std.specs.Prelude.{◌≡◌, ◌^◌, ◌<◌, length, All};
ghost use Rattle.registers.specs.Marks.{IsThroughWithin};
ghost use Rattle.registers.specs.RegisterMarks.{AreMarks};
ghost use Rattle.delay_bind.specs.Answers.{IsJudged};
ghost use Rattle.delay_bind.specs.Binding.{entries_in, IsPairsAnswer, IsNegativeNamed};
ghost use Rattle.delay_bind.specs.Bindings.{negative_pair};
ghost use Rattle.delay_bind.specs.Entries.{refusal_of};

use crate::entries::EntryLists;
use crate::faults::BindFault;
use crate::naming::{name_of_pin, refusal};
use bud_design::Pair;
use flat_design::Flat;
use registers::{PairTable, RegisterMarks, fault_of_registers, pair_table};
use std::alloc::Global;

/// Refuses the first register that can't be one.
pub fn judge_registers(
    alloc: Global,
    flat: &Flat,
    lists: &EntryLists,
    marks: &RegisterMarks,
) -> Result<(), BindFault>
    requires within { All (IsThroughWithin (length flat.now.pins)) lists.now.throughs.items }
    requires marks { AreMarks flat.now lists.now.throughs.items lists.now.setups.items marks.now }
    ensures { IsJudged (refusal_of flat.now (entries_in lists.now)) (λ _. Unit {0}) result }
{
    let _places = flat.places();
    match fault_of_registers(alloc, flat, &lists.throughs, marks) {
        Ok(None) => Ok(()),
        Ok(Some(fault)) => Err(refusal(alloc, flat, fault)),
        Err(_) => Err(BindFault::NoMemory),
    }
}

/// The first pair whose value is negative.
fn first_negative(pairs: &[Pair]) -> Option<Pair>
    ensures { result ≡ negative_pair pairs.now }
{
    for pair in pairs {
        if pair.value < 0 {
            return Some(*pair);
        }
    }
    None
}

/// The refusal of a pair with a negative value.
fn negative(alloc: Global, flat: &Flat, pair: Pair) -> BindFault
    requires from { pair.from.0 < length flat.now.pins }
    requires to { pair.to.0 < length flat.now.pins }
    ensures { IsNegativeNamed flat.now pair result }
{
    let Ok(from) = name_of_pin(alloc, flat, pair.from) else {
        return BindFault::NoMemory;
    };
    match name_of_pin(alloc, flat, pair.to) {
        Ok(to) => BindFault::NegativeDelay(from, to),
        Err(_) => BindFault::NoMemory,
    }
}

/// The pairs of leaves' pins that delays lead through, or the refusal of the first whose value is negative.
pub fn pairs_of(
    alloc: Global,
    flat: &Flat,
    lists: &EntryLists,
    marks: &RegisterMarks,
) -> Result<PairTable, BindFault>
    requires within { All (IsThroughWithin (length flat.now.pins)) lists.now.throughs.items }
    requires few { length lists.now.throughs.items < 2 ^ 32 }
    requires marks { AreMarks flat.now lists.now.throughs.items lists.now.setups.items marks.now }
    ensures { IsPairsAnswer flat.now (entries_in lists.now) result }
{
    let Ok(table) = pair_table(alloc, flat, &lists.throughs, marks) else {
        return Err(BindFault::NoMemory);
    };
    match first_negative(table.pairs.as_slice()) {
        None => Ok(table),
        Some(pair) => Err(negative(alloc, flat, pair)),
    }
}
