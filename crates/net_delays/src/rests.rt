ghost use Rattle.std.specs.Prelude.{◌≡◌, ℕ, ◌<◌, length, All, IfOk};
ghost use Rattle.net_delays.specs.Alongs.{sum_of, IsWithin, IsSoundAlong};
ghost use Rattle.net_delays.specs.Drives.{drive_of, AreWithin};
ghost use Rattle.net_delays.specs.Rests.{AreSteps, IsWireWithin, is_negative, IsLeastNegative, lesser_pin};

use crate::alongs::Along;
use bud_base::{PinId, Times};
use bud_design::Wire;
use std::alloc::{AllocError, Global};

/// Puts the delay of each wire, in ps.
fn put_steps(wires: &[Wire], sums: &[i64], delays: &mut [i64])
    requires size { length delays.old ≡ length wires.now }
    requires ends { All (IsWireWithin (length sums.now)) wires.now }
    requires within { (v : ℕ) → IsWithin 4294967296000000000 (sum_of sums.now v) }
    ensures { AreSteps (sum_of sums.now) wires.now delays.new }
{
    for (place, wire) in wires.iter().enumerate() {
        delays[place] = sums[wire.to.0 as usize] - sums[wire.from.0 as usize];
    }
}

/// The delay of each wire, in ps: what the sum of its last pin is more than that of its first.
pub fn wire_delays(alloc: Global, wires: &[Wire], sums: &[i64]) -> Result<Times, AllocError>
    requires ends { All (IsWireWithin (length sums.now)) wires.now }
    requires within { (v : ℕ) → IsWithin 4294967296000000000 (sum_of sums.now v) }
    ensures { IfOk result (λ delays. AreSteps (sum_of sums.now) wires.now delays) }
{
    let mut delays = vec![in alloc; 0; wires.len()]?;
    put_steps(wires, sums, &mut delays);
    Ok(Times::from_vec(delays))
}

/// Whether less than 0 is left of a delay for its last wire.
fn has_negative_rest(drivers: &[Option<PinId>], sums: &[i64], along: Along) -> bool
    requires sizes { length drivers.now ≡ length sums.now }
    requires drivers { AreWithin drivers.now }
    requires sound { IsSoundAlong (drive_of drivers.now) (length sums.now) along }
    requires within { (v : ℕ) → IsWithin 4294967296000000000 (sum_of sums.now v) }
    ensures { result ≡ is_negative (drive_of drivers.now) (sum_of sums.now) along }
{
    match drivers[along.to.0 as usize] {
        Some(driver) => { along.value + sums[along.from.0 as usize] < sums[driver.0 as usize] }
        None => false,
    }
}

/// The least pin that a delay ends at of which less than 0 is left for the wire into the pin.
pub fn least_negative(drivers: &[Option<PinId>], sums: &[i64], alongs: &[Along]) -> Option<PinId>
    requires sizes { length drivers.now ≡ length sums.now }
    requires drivers { AreWithin drivers.now }
    requires sound { All (IsSoundAlong (drive_of drivers.now) (length sums.now)) alongs.now }
    requires within { (v : ℕ) → IsWithin 4294967296000000000 (sum_of sums.now v) }
    ensures { IsLeastNegative (drive_of drivers.now) (sum_of sums.now) alongs.now (length alongs.now) result }
{
    let mut least = None;
    for along in alongs {
        if has_negative_rest(drivers, sums, *along) {
            least = Some(lesser(least, along.to));
        }
    }
    least
}

/// The lesser of a pin and another, where there is one.
fn lesser(least: Option<PinId>, pin: PinId) -> PinId
    ensures { result ≡ lesser_pin least pin }
{
    match least {
        Some(held) if held.0 < pin.0 => held,
        _ => pin,
    }
}
