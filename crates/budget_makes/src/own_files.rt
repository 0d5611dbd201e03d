//! A made design as files of its own.
ghost use Rattle.std.specs.Prelude.{◌≡◌, ◌<◌, ◌≤◌, IfOk};
ghost use Rattle.budget_designs.specs.Layerings.{FollowsAs};
ghost use Rattle.budget_plans.specs.Layouts.{IsLaid, laid_of};
ghost use Rattle.budget_makes.specs.OwnFiles.{made_design, own_files, own_layout};

use bud_gen::{MadeDesign, make_design};
use bud_shelf::SafeShelf;
use budget_plans::{Layout, load_layout};
use budget_steps::Stop;
use std::alloc::{AllocError, Global};

/// The design of so many gates that a number tells.
pub fn made_design(alloc: Global, gates: u32, number: u32) -> Result<MadeDesign, AllocError>
    requires some { 1 ≤ gates }
    requires gates { gates ≤ 20000 }
    requires number { number < 2147483648 }
    ensures { IfOk result (λ design. design ≡ made_design gates number) }
{
    make_design(alloc, gates, number)
}

/// Lays a made design out.
pub fn own_layout(alloc: Global, design: &MadeDesign) -> Result<Layout, Stop>
    ensures course { FollowsAs laid_of (own_layout design.now) result }
    ensures laid { IfOk result IsLaid }
{
    let mut shelf = own_files(alloc, design)?;
    load_layout(alloc, &mut shelf, "verilog", "sdf", "sdc", "policy")
}

/// A shelf with the four texts of a design.
fn own_files(alloc: Global, design: &MadeDesign) -> Result<SafeShelf, AllocError>
    ensures { IfOk result (λ shelf. shelf ≡ own_files design.now) }
{
    let mut shelf = SafeShelf::new(alloc);
    shelf.add("verilog", design.verilog.as_slice())?;
    shelf.add("sdf", design.sdf.as_slice())?;
    shelf.add("sdc", design.sdc.as_slice())?;
    shelf.add("policy", design.policy.as_slice())?;
    Ok(shelf)
}
