//! The check of a certificate of a design.
ghost use Rattle.bud_plans.specs.Plans.{HasPlanNumbers};
ghost use Rattle.budget_steps.specs.Steps.{Follows};
ghost use Rattle.budget_plans.specs.Layouts.{IsLaid, laid_of};
ghost use Rattle.budget_plans.specs.Verdicts.{verdict};
ghost use Rattle.cert_text.specs.Certs.{plan_in};

use crate::layouts::Layout;
use budget_report::{Cause, Scene, holds_text};
use budget_steps::{Answer, Stop, refused};
use cert_text::Cert;
use design_certs::check_cert;
use plan_cert::{CertAnswer, Sums};
use std::alloc::Global;

/// Whether the certificate holds, whoever wrote it.
pub fn verdict(alloc: Global, layout: &Layout, cert: &Cert) -> Result<Answer, Stop>
    requires laid { IsLaid layout.now }
    requires numbers { HasPlanNumbers (plan_in cert.now) }
    ensures { Follows (verdict (laid_of layout.now) cert.now) result }
{
    let layered = &layout.layered;
    let flat = &layout.design.flat;
    let all = &layout.design.constraints;
    let mut sums = Sums::new(alloc, &layered.problem)?;
    match check_cert(layered, flat, all, cert, &mut sums) {
        CertAnswer::Holds(weight) => Ok(Answer::done(alloc, holds_text(alloc, weight)?)),
        CertAnswer::Fault(fault) => {
            let scene = Scene::Design(layered, flat, all);
            Err(refused(alloc, &Cause::Cert(fault), scene))
        }
    }
}
