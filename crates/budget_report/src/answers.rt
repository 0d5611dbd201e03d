//! The lines of jobs that are done.
ghost use Rattle.std.specs.Prelude.{◌≡◌, IfOk};
ghost use Rattle.budget_report.specs.Certificates as certificates;
ghost use Rattle.budget_report.specs.Violations as violations;

use crate::lines::put_weight;
use bud_base::Text;
use line_text::put_whole;
use std::alloc::{AllocError, Global};

/// The line of a least slack of at least 0 ps.
pub fn meets_text(alloc: Global, slack: i64) -> Result<Text, AllocError>
    ensures { IfOk result (λ text. text ≡ violations.meets_text slack) }
{
    let mut out = Vec::from_slice(alloc, b"meets")?;
    put_whole(&mut out, slack)?;
    out.push(b'\n')?;
    Ok(Text::from_vec(out))
}

/// The line where no path leads from a start to an end.
pub fn no_paths_text(alloc: Global) -> Result<Text, AllocError>
    ensures { IfOk result (λ text. text ≡ violations.no_paths_text) }
{
    let out = Vec::from_slice(alloc, b"no paths\n")?;
    Ok(Text::from_vec(out))
}

/// The line of a certificate that holds, with its weight.
pub fn holds_text(alloc: Global, weight: i128) -> Result<Text, AllocError>
    ensures { IfOk result (λ text. text ≡ certificates.holds_text weight) }
{
    let mut out = Vec::from_slice(alloc, b"holds")?;
    put_weight(&mut out, weight)?;
    out.push(b'\n')?;
    Ok(Text::from_vec(out))
}
