ghost use Rattle.std.specs.Prelude.{◌≡◌, ◌==◌, ◌≤◌, true, nat_lt, length, drop, find, AllPairs};
ghost use Rattle.bud_design.specs.Exceptions.{has_pin as pin_stands, has_clock as clock_stands, names as are_named};
ghost use Rattle.path_requirements.specs.Matching.{first_of, kind_met as kind_of};

use bud_base::PinId;
use bud_design::{Capture, Exception, ExceptionKind, Marks, Met};

fn has_pin(pins: &[PinId], pin: PinId) -> bool
    ensures { result ≡ pin_stands pins.now pin.0 }
{
    for other in pins {
        if other.0 == pin.0 {
            return true;
        }
    }
    false
}

fn has_clock(clocks: &[u32], clock: u32) -> bool
    ensures { result ≡ clock_stands clocks.now clock }
{
    for other in clocks {
        if *other == clock {
            return true;
        }
    }
    false
}

/// Whether a part names the pin or the clock, as one that isn't there does.
fn names(part: &Option<Marks>, pin: PinId, clock: u32) -> bool
    ensures { result ≡ are_named part.now pin.0 clock }
{
    match part {
        None => true,
        Some(marks) => {
            has_pin(marks.pins.as_slice(), pin) || has_clock(marks.clocks.as_slice(), clock)
        }
    }
}

/// How many exceptions have lesser numbers, in logarithmic time: there the exception of the number stands.
fn place_of(exceptions: &[Exception], number: u32) -> usize
    requires { AllPairs (λ e f. nat_lt e.number f.number ≡ true) exceptions.now }
    ensures within { result ≤ length exceptions.now }
    ensures found { find (λ e. e.number == number) exceptions.now ≡ first_of (drop result exceptions.now) number }
{
    exceptions.partition_point(|e| e.number < number)
}

/// The kind of the exception that is met, where all its groups are and the capture meets its to-part.
pub fn kind_met(exceptions: &[Exception], met: Met, capture: &Capture) -> Option<ExceptionKind>
    requires { AllPairs (λ e f. nat_lt e.number f.number ≡ true) exceptions.now }
    ensures { result ≡ kind_of exceptions.now capture.now met }
{
    let place = place_of(exceptions, met.number);
    if place == exceptions.len() {
        return None;
    }
    let exception = &exceptions[place];
    if exception.number == met.number
        && met.steps as usize == exception.groups.len()
        && names(&exception.to, capture.pin, capture.clock)
    {
        Some(exception.kind)
    } else {
        None
    }
}
