ghost use Rattle.std.specs.Prelude.{◌≡◌, ◌^◌, ◌<◌, ℕ, None, Some, length, All, IfOk};
ghost use Rattle.bud_design.specs.Lists.{greater};
ghost use Rattle.net_delays.specs.Alongs.{along_at, next_at, sum_of, reach, greatest_reach, IsNextEnd, AreEndsFrom, IsWithin};
ghost use Rattle.net_delays.specs.EndLists.{AreEnds, IsSmallAlong};

use crate::alongs::Along;
use bud_base::PinId;
use std::alloc::{AllocError, Global};

/// The delays that end at each pin, in lists by number: the first at a pin, and the next after one.
#[derive(Debug, Drop)]
pub struct Ends {
    first: Vec<Option<u32>>,
    next: Vec<Option<u32>>,
}

impl Ends {
    /// Lists the delays, over so many pins.
    pub fn new(alloc: Global, pins: u32, alongs: &[Along]) -> Result<Ends, AllocError>
        requires few { length alongs.now < 2 ^ 32 }
        requires to { All (λ x. x.to.0 < pins) alongs.now }
        ensures { IfOk result (λ ends. AreEnds alongs.now pins ends) }
    {
        let mut first = vec![in alloc; None; pins as usize]?;
        let mut next = vec![in alloc; None; alongs.len()]?;
        link(alongs, &mut first, &mut next);
        Ok(Ends { first, next })
    }

    /// The greatest that a delay to the pin reaches, where the first pins of delays have these sums.
    pub fn greatest(&self, alongs: &[Along], sums: &[i64], pin: PinId) -> Option<i64>
        requires ends { AreEnds alongs.now (length sums.now) self.now }
        requires pin { pin.0 < length sums.now }
        requires small { All (IsSmallAlong (length sums.now)) alongs.now }
        requires within { (v : ℕ) → IsWithin 4294967296000000000 (sum_of sums.now v) }
        ensures { result ≡ greatest_reach (sum_of sums.now) alongs.now pin.0 }
    {
        let mut best = None;
        let mut next = self.first[pin.0 as usize];
        while let Some(number) = next {
            best = later(best, alongs[number as usize], sums);
            next = self.next[number as usize];
        }
        best
    }
}

/// Lists the delays from the last to the first.
fn link(alongs: &[Along], first: &mut [Option<u32>], next: &mut [Option<u32>])
    requires few { length alongs.now < 2 ^ 32 }
    requires to { All (λ x. x.to.0 < length first.old) alongs.now }
    requires room { length next.old ≡ length alongs.now }
    requires none { (v : ℕ) → next_at first.old v ≡ None }
    ensures lists { AreEndsFrom alongs.now 0 first.new next.new }
    ensures pins { length first.new ≡ length first.old }
    ensures size { length next.new ≡ length next.old }
{
    let mut low = alongs.len();
    while low > 0 {
        low -= 1;
        let pin = alongs[low].to.0 as usize;
        next[low] = first[pin];
        first[pin] = Some(low as u32);
    }
}

/// The greater of what a delay reaches and a number, where there is one.
fn later(best: Option<i64>, along: Along, sums: &[i64]) -> Option<i64>
    requires small { IsSmallAlong (length sums.now) along }
    requires within { (v : ℕ) → IsWithin 4294967296000000000 (sum_of sums.now v) }
    ensures { result ≡ Some (greater (reach (sum_of sums.now) along) best) }
{
    let reach = along.value + sums[along.from.0 as usize];
    match best {
        Some(held) if held >= reach => best,
        _ => Some(reach),
    }
}
