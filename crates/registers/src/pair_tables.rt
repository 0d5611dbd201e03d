ghost use Rattle.std.specs.Prelude.{◌≡◌, ◌^◌, ◌<◌, List, map, filter_map, length, All, IfOk};
ghost use Rattle.registers.specs.Marks.{IsThroughWithin};
ghost use Rattle.registers.specs.PairLists.{through_value, marked_pair, HasRoom};
ghost use Rattle.registers.specs.PairTables.{IsPairTable};
ghost use Rattle.registers.specs.RegisterMarks.{AreMarks};
ghost use Rattle.registers.specs.declared.entries.Setup.{Setup};

use crate::entries::Through;
use crate::register_marks::RegisterMarks;
use crate::tables::{Valued, greatest_of_each};
use bud_design::{Pair, Pairs, Pin};
use flat_design::Flat;
use std::alloc::{AllocError, Global};

/// The pairs of cell and launch arcs, and how many other pairs of pins of registers delays lead through.
#[derive(Debug, Drop)]
pub struct PairTable {
    pub pairs: Pairs,
    pub left_out: u32,
}

/// The delays as values at their pins.
fn through_values(alloc: Global, throughs: &[Through]) -> Result<Vec<Valued>, AllocError>
    ensures { IfOk result (λ values. values.items ≡ map through_value throughs.now) }
{
    let mut values = Vec::new(alloc);
    for through in throughs {
        values.push(Valued {
            first: through.from,
            second: through.to,
            falls: false,
            value: through.value,
        })?;
    }
    Ok(values)
}

/// The pair of a delay, where it counts.
fn pair_of(pins: &[Pin], marks: &RegisterMarks, delay: &Valued) -> Option<Pair>
    requires { HasRoom pins.now marks.now delay.now }
    ensures { result ≡ marked_pair pins.now marks.now delay.now }
{
    let pin = delay.first.0 as usize;
    let launch = marks.registers[pins[pin].place as usize];
    if launch && !marks.clocks[pin] {
        return None;
    }
    Some(Pair {
        from: delay.first,
        to: delay.second,
        value: delay.value,
        launch,
    })
}

/// The pairs of the delays that count.
fn counted(
    alloc: Global,
    pins: &[Pin],
    marks: &RegisterMarks,
    delays: &[Valued],
) -> Result<Pairs, AllocError>
    requires { All (HasRoom pins.now marks.now) delays.now }
    ensures { IfOk result (λ pairs. pairs ≡ filter_map (marked_pair pins.now marks.now) delays.now) }
{
    let mut pairs = Vec::new(alloc);
    for delay in delays {
        if let Some(pair) = pair_of(pins, marks, delay) {
            pairs.push(pair)?;
        }
    }
    Ok(Pairs::from_vec(pairs))
}

/// The pairs of these delays, with the marks of pins and instances.
pub fn pair_table(
    alloc: Global,
    flat: &Flat,
    throughs: &[Through],
    marks: &RegisterMarks,
) -> Result<PairTable, AllocError>
    requires within { All (IsThroughWithin (length flat.now.pins)) throughs.now }
    requires few { length throughs.now < 2 ^ 32 }
    requires marks { (setups : List Setup) × AreMarks flat.now throughs.now setups marks.now }
    ensures { (setups : List Setup) → AreMarks flat.now throughs.now setups marks.now → IfOk result (IsPairTable flat.now throughs.now setups) }
{
    let mut values = through_values(alloc, throughs)?;
    let delays = greatest_of_each(alloc, &mut values)?;
    let pairs = counted(alloc, flat.pins(), marks, &delays)?;
    let left_out = delays.len() - pairs.len();
    Ok(PairTable {
        pairs,
        left_out: left_out as u32,
    })
}
