ghost use Rattle.std.specs.Prelude.{◌≡◌, length};
ghost use Rattle.bud_base.specs.Soundness.{IsSound};
ghost use Rattle.least_check.specs.Arrivals.{IsSwept};
ghost use Rattle.least_check.specs.WorstEnds.{worse_of, IsWorstEnd};

use crate::arrivals::Arrival;
use bud_base::Problem;

/// An end, by its number, and what its latest arrival leaves of its required time, in ps.
#[derive(Clone, Copy, Debug)]
pub struct WorstEnd {
    pub end: u32,
    pub slack: i64,
}

/// The one of less slack, and the held one where the two have the same.
fn worse(held: Option<WorstEnd>, new: WorstEnd) -> WorstEnd
    ensures { result ≡ worse_of held new }
{
    match held {
        Some(held) if held.slack <= new.slack => held,
        _ => new,
    }
}

/// The first end of the least slack, or none where no end has an arrival.
pub fn worst_end(problem: &Problem, arrivals: &[Option<Arrival>]) -> Option<WorstEnd>
    requires sound { IsSound problem.now }
    requires swept { IsSwept problem.now arrivals.now }
    ensures worst { IsWorstEnd problem.now (length problem.now.ends) arrivals.now result }
{
    let mut worst = None;
    for (number, end) in problem.ends.as_slice().iter().enumerate() {
        if let Some(arrival) = arrivals[end.node.0 as usize] {
            let new = WorstEnd {
                end: number as u32,
                slack: end.require - arrival.time,
            };
            worst = Some(worse(worst, new));
        }
    }
    worst
}
