//! Made designs.
ghost use Rattle.std.specs.Prelude.{◌≡◌, ◌<◌, ◌≤◌, IfOk};
ghost use Rattle.bud_gen.specs.ConstraintFiles.{sdc_text};
ghost use Rattle.bud_gen.specs.DelayFiles.{sdf_text};
ghost use Rattle.bud_gen.specs.Gates.{blocks, registers};
ghost use Rattle.bud_gen.specs.Netlists.{verilog_text};
ghost use Rattle.bud_gen.specs.Policies.{policy_text};

use crate::constraints::sdc_text;
use crate::delays::sdf_text;
use crate::gates::{blocks, registers};
use crate::netlists::verilog_text;
use crate::policies::policy_text;
use bud_base::Text;
use std::alloc::{AllocError, Global};

/// The four texts of a made design, and how many registers it has.
#[derive(Debug, Drop)]
pub struct MadeDesign {
    pub verilog: Text,
    pub sdf: Text,
    pub sdc: Text,
    pub policy: Text,
    pub registers: u32,
}

/// The design of so many gates, from 1 to 20,000, that is told by a number below 2^31.
pub fn make_design(alloc: Global, gates: u32, number: u32) -> Result<MadeDesign, AllocError>
    requires some { 1 ≤ gates }
    requires gates { gates ≤ 20000 }
    requires number { number < 2147483648 }
    ensures verilog { IfOk result (λ made. made.verilog ≡ verilog_text (blocks gates number)) }
    ensures sdf { IfOk result (λ made. made.sdf ≡ sdf_text (blocks gates number)) }
    ensures sdc { IfOk result (λ made. made.sdc ≡ sdc_text gates) }
    ensures policy { IfOk result (λ made. made.policy ≡ policy_text (blocks gates number)) }
    ensures registers { IfOk result (λ made. made.registers ≡ registers (blocks gates number)) }
{
    let blocks = blocks(alloc, gates, number)?;
    Ok(MadeDesign {
        verilog: verilog_text(alloc, blocks.as_slice())?,
        sdf: sdf_text(alloc, blocks.as_slice())?,
        sdc: sdc_text(alloc, gates)?,
        policy: policy_text(alloc, blocks.as_slice())?,
        registers: registers(blocks.as_slice()),
    })
}
