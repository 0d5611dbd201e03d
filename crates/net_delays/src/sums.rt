ghost use Rattle.std.specs.Prelude.{◌≡◌, ◌^◌, ℕ, ◌<◌, Some, pos, length, All, slice_set, unwrap_or};
ghost use Rattle.net_delays.specs.Additions.{IsListing};
ghost use Rattle.net_delays.specs.Alongs.{sum_of, greatest_reach, IsWithin, IsSoundAlong, AreSums};
ghost use Rattle.net_delays.specs.Drives.{drive_of, AreWithin};
ghost use Rattle.net_delays.specs.EndLists.{AreEnds, IsSmallAlong};

use crate::alongs::Along;
use crate::ends::Ends;
use bud_base::PinId;

/// Finds the sum of a pin from those of the pins that lead to it.
fn add_at(drivers: &[Option<PinId>], alongs: &[Along], ends: &Ends, sums: &mut [i64], pin: PinId)
    requires drivers { AreWithin drivers.now }
    requires sizes { length drivers.now ≡ length sums.old }
    requires pin { pin.0 < length sums.old }
    requires ends { AreEnds alongs.now (length sums.old) ends.now }
    requires small { All (IsSmallAlong (length sums.old)) alongs.now }
    requires within { (v : ℕ) → IsWithin 4294967296000000000 (sum_of sums.old v) }
    ensures { (u : ℕ) → drive_of drivers.now pin.0 ≡ Some u → sums.new ≡ slice_set sums.old pin.0 (unwrap_or (greatest_reach (sum_of sums.old) alongs.now pin.0) (sum_of sums.old u)) }
{
    let Some(driver) = drivers[pin.0 as usize] else {
        return;
    };
    match ends.greatest(alongs, sums, pin) {
        Some(sum) => sums[pin.0 as usize] = sum,
        None => sums[pin.0 as usize] = sums[driver.0 as usize],
    }
}

/// Adds up the delays over the trees of wires, in an order in which each pin stands behind those that lead to it.
pub fn add_up(
    drivers: &[Option<PinId>],
    order: &[PinId],
    alongs: &[Along],
    ends: &Ends,
    sums: &mut [i64],
)
    requires listing { IsListing drivers.now order.now }
    requires sizes { length drivers.now ≡ length sums.old }
    requires ends { AreEnds alongs.now (length sums.old) ends.now }
    requires sound { All (IsSoundAlong (drive_of drivers.now) (length sums.old)) alongs.now }
    requires none { (v : ℕ) → sum_of sums.old v ≡ pos 0 }
    ensures { AreSums (drive_of drivers.now) (length sums.old) alongs.now sums.new }
{
    for pin in order {
        add_at(drivers, alongs, ends, sums, *pin);
    }
}
