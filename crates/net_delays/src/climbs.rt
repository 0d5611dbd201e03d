ghost use Rattle.std.specs.Prelude.{◌≡◌, ◌^◌, ◌<◌, [], length, IfOk};
ghost use Rattle.net_delays.specs.Drives.{drive_of, AreWithin};
ghost use Rattle.net_delays.specs.Forests.{mark_at};
ghost use Rattle.net_delays.specs.Climbs.{AreClosed, IsClimbed};

use crate::forests::Mark;
use bud_base::PinId;
use std::alloc::AllocError;

/// Climbs from a new pin to the top of its tree or to a settled pin, and puts the pins that it meets on the path.
///
/// It answers how many of them are below the top.
pub fn climb(
    drivers: &[Option<PinId>],
    marks: &mut [Mark],
    path: &mut Vec<PinId>,
    start: PinId,
) -> Result<usize, AllocError>
    requires sizes { length marks.old ≡ length drivers.now }
    requires few { length drivers.now < 2 ^ 32 }
    requires drivers { AreWithin drivers.now }
    requires closed { AreClosed marks.old }
    requires empty { path.old.items ≡ [] }
    requires new { mark_at marks.old start.0 ≡ Mark.New }
    requires within { start.0 < length marks.old }
    ensures { IfOk result (λ place. IsClimbed (drive_of drivers.now) marks.old marks.new path.new.items start.0 place) }
{
    let mut pin = start;
    'climb: loop {
        let place = path.len();
        marks[pin.0 as usize] = Mark::Open(place as u32);
        path.push(pin)?;
        let Some(driver) = drivers[pin.0 as usize] else {
            return Ok(place);
        };
        match marks[driver.0 as usize] {
            Mark::New => pin = driver,
            Mark::Open(top) => return Ok(top as usize),
            Mark::Settled(_) => return Ok(place + 1),
        }
    }
}
