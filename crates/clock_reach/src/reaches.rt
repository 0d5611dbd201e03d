ghost use Rattle.std.specs.Prelude.{◌<◌, length, IfOk};
ghost use Rattle.clock_reach.specs.Reached.{AreSources, AreReached};

use crate::walks::mark_pins;
use bud_base::Listed;
use bud_design::Clock;
use flat_design::Flat;
use std::alloc::{AllocError, Global};

/// The number of a clock at each pin, or none.
pub type PinClocks = Listed<Option<u32>>;

/// Which clock reaches each pin: the one from a source of which one or more wires lead there.
///
/// It takes time linear in the pins, the wires and the sources.
pub fn reaching_clocks(
    alloc: Global,
    flat: &Flat,
    clocks: &[Clock],
) -> Result<PinClocks, AllocError>
    requires few { length clocks.now < 2147483648 }
    requires sources { AreSources flat.now clocks.now }
    ensures { IfOk result (AreReached flat.now 0 clocks.now) }
{
    let pins = flat.pins().len();
    let marks = mark_pins(alloc, flat.wires(), clocks, pins)?;
    Ok(PinClocks::from_vec(marks))
}
