ghost use Rattle.std.specs.Prelude.{◌<◌, length, All, IfOk};
ghost use Rattle.net_delays.specs.Drives.{AreDrivers};

use bud_base::PinId;
use bud_design::Wire;
use std::alloc::{AllocError, Global};

/// The driver of each of so many pins, by number.
pub fn drivers(alloc: Global, pins: u32, wires: &[Wire]) -> Result<Vec<Option<PinId>>, AllocError>
    requires { All (λ wire. wire.to.0 < pins) wires.now }
    ensures { IfOk result (λ drivers. AreDrivers wires.now pins drivers.items) }
{
    let mut drivers = vec![in alloc; None; pins as usize]?;
    let mut low = wires.len();
    while low > 0 {
        low -= 1;
        let wire = wires[low];
        drivers[wire.to.0 as usize] = Some(wire.from);
    }
    Ok(drivers)
}
