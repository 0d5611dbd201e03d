//! The jobs, each as its steps in order.
ghost use Rattle.std.specs.Prelude.{◌≡◌, ◌≤◌, All};
ghost use Rattle.bud_plans.specs.Plans.{HasPlanNumbers};
ghost use Rattle.budget_steps.specs.Inputs.{seen};
ghost use Rattle.budget_steps.specs.Steps.{Follows};
ghost use Rattle.budget_designs.specs.DesignFiles.{AreDesignFiles};
ghost use Rattle.budget_plans.specs.FileNames.{HaveNames};
ghost use Rattle.budget_plans.specs.Jobs.{check_in, check_job, plan_job};
ghost use Rattle.cert_text.specs.Certs.{plan_in};
ghost use Rattle.policy_lines.specs.Shares.{IsSoundLine};

use crate::files::{CertText, PolicyText};
use crate::layouts::{laid_out, load_layout};
use crate::plans::planned;
use crate::verdicts::verdict;
use bud_design::Policy;
use bud_shelf::Shelf;
use budget_designs::{DesignFiles, load_design};
use budget_steps::{Answer, Stop, load};
use cert_text::Cert;
use std::alloc::Global;

/// `plan V SDF SDC POLICY CERT`: best budgets of a design, whose certificate is to be written to CERT, or a worst violated
/// path.
pub fn plan<S: Shelf>(
    alloc: Global,
    shelf: &mut S,
    netlist: &str,
    delays: &str,
    constraints: &str,
    policy: &str,
    certificate: &str,
) -> Result<Answer, Stop>
    ensures course { Follows (plan_job (seen S.files S.faults shelf.old shelf.new) netlist.now delays.now constraints.now policy.now certificate.now) result }
    ensures files { S.files shelf.new ≡ S.files shelf.old }
    ensures later { S.faults shelf.old ≤ S.faults shelf.new }
{
    let layout = load_layout(alloc, shelf, netlist, delays, constraints, policy)?;
    planned(alloc, &layout, certificate)
}

/// `check V SDF SDC POLICY CERT`: checks a certificate of a design, whoever wrote it.
pub fn check<S: Shelf>(
    alloc: Global,
    shelf: &mut S,
    netlist: &str,
    delays: &str,
    constraints: &str,
    policy: &str,
    certificate: &str,
) -> Result<Answer, Stop>
    ensures course { Follows (check_job (seen S.files S.faults shelf.old shelf.new) netlist.now delays.now constraints.now policy.now certificate.now) result }
    ensures files { S.files shelf.new ≡ S.files shelf.old }
    ensures later { S.faults shelf.old ≤ S.faults shelf.new }
{
    let files = load_design(alloc, shelf, netlist, delays, constraints)?;
    let policy = load::<PolicyText, S>(alloc, shelf, policy)?;
    let cert = load::<CertText, S>(alloc, shelf, certificate)?;
    check_in(alloc, files, policy, &cert)
}

/// What comes of the values of the files.
fn check_in(alloc: Global, files: DesignFiles, policy: Policy, cert: &Cert) -> Result<Answer, Stop>
    requires files { AreDesignFiles files }
    requires names { HaveNames files }
    requires lines { All IsSoundLine policy.lines }
    requires numbers { HasPlanNumbers (plan_in cert.now) }
    ensures { Follows (check_in files policy cert.now) result }
{
    let layout = laid_out(alloc, files, policy)?;
    verdict(alloc, &layout, cert)
}
