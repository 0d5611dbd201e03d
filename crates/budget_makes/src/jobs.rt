//! The job by its steps in order.
ghost use Rattle.std.specs.Prelude.{◌≤◌, ◌<◌};
ghost use Rattle.budget_steps.specs.Steps.{Follows};
ghost use Rattle.budget_makes.specs.Jobs.{make_job, make_of};

use crate::makes::made;
use crate::own_files::{made_design, own_layout};
use bud_gen::MadeDesign;
use budget_steps::{Answer, Stop};
use std::alloc::Global;

/// `make GATES NUMBER`: makes a design of so many gates, from 1 to 20,000, told by a number below 2^31, and answers how large it is and what
/// its best budgets come to, or a worst violated path.
pub fn make(alloc: Global, gates: u32, number: u32) -> Result<Answer, Stop>
    requires some { 1 ≤ gates }
    requires gates { gates ≤ 20000 }
    requires number { number < 2147483648 }
    ensures { Follows (make_job gates number) result }
{
    let design = made_design(alloc, gates, number)?;
    make_of(alloc, &design, gates)
}

/// What comes of a design of so many gates.
fn make_of(alloc: Global, design: &MadeDesign, gates: u32) -> Result<Answer, Stop>
    ensures { Follows (make_of design.now gates) result }
{
    let layout = own_layout(alloc, design)?;
    made(alloc, &layout, gates, design.registers)
}
