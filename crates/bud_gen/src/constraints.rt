//! The timing constraints of a made design.
ghost use Rattle.std.specs.Prelude.{◌≡◌, ◌≤◌, IfOk};
ghost use Rattle.bud_gen.specs.ConstraintFiles.{sdc_text};

use crate::signals::put_numbered;
use bud_base::Text;
use std::alloc::{AllocError, Global};

/// The timing constraints of a design of so many gates.
#[tactic(auto, unfolding(crate::specs::ConstraintFiles::sdc_text))]
pub fn sdc_text(alloc: Global, gates: u32) -> Result<Text, AllocError>
    requires { gates ≤ 20000 }
    ensures { IfOk result (λ text. text ≡ sdc_text gates) }
{
    let mut out = Vec::new(alloc);
    let period = 100 * gates + 1000;
    put_numbered(
        &mut out,
        b"set_units -time ps\ncurrent_design top\ncreate_clock -name C -period ",
        period,
    )?;
    out.extend_from_slice(b" [get_ports clk]\n")?;
    out.extend_from_slice(
        b"set_input_delay 0 -clock C [get_ports {a0 a1 a2 a3}]\nset_output_delay 0 -clock C [get_ports {y0 y1 y2 y3}]\n",
    )?;
    Ok(Text::from_vec(out))
}
