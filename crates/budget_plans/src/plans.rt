//! A best plan of a design with its certificate, or a worst violated path.
ghost use Rattle.std.specs.Prelude.{◌≡◌, IfOk};
ghost use Rattle.budget_steps.specs.Steps.{Follows};
ghost use Rattle.budget_plans.specs.Layouts.{IsLaid, laid_of, view_in};
ghost use Rattle.budget_plans.specs.Plans.{IsCertified, IsMetSlack, planned};
ghost use Rattle.budget_plans.specs.Writing.{IsCertText, IsWritten};
ghost use Rattle.bud_plans.specs.Plans.{IsPlanOf, IsHolding, HasPlanNumbers};

use crate::layouts::Layout;
use crate::solving::best_plan;
use bud_base::{Listed, Text};
use bud_plans::Plan;
use budget_designs::violated;
use budget_report::Status;
use budget_steps::{Answer, Said, Stop, Write};
use cert_text::write_cert;
use design_certs::cert_of;
use least_check::{Least, LeastCheck};
use plan_report::summary;
use std::alloc::{AllocError, Global};

/// A best plan of a design, with the text of its certificate and its summary.
#[derive(Debug, Drop)]
pub struct CertifiedPlan {
    pub plan: Plan,
    pub bytes: Text,
    pub text: Text,
}

/// The answer of `plan`: a best plan, whose certificate is to be written to this file, or a worst violated path.
pub fn planned(alloc: Global, layout: &Layout, certificate: &str) -> Result<Answer, Stop>
    requires { IsLaid layout.now }
    ensures { Follows (planned (laid_of layout.now) certificate.now) result }
{
    let mut check = LeastCheck::new(alloc, &layout.layered.problem)?;
    match check.run(&layout.layered.problem) {
        Least::NoPaths => written(alloc, layout, None, certificate),
        Least::Meets(slack) => written(alloc, layout, Some(slack), certificate),
        Least::Violated(slack) => violated(
            alloc,
            &layout.design.flat,
            &layout.design.constraints,
            &layout.layered,
            &check,
            slack,
        ),
    }
}

/// The answer where no constrained path is violated.
fn written(
    alloc: Global,
    layout: &Layout,
    slack: Option<i64>,
    certificate: &str,
) -> Result<Answer, Stop>
    requires laid { IsLaid layout.now }
    requires met { IsMetSlack (view_in (laid_of layout.now)) slack }
    ensures { Follows (planned (laid_of layout.now) certificate.now) result }
{
    let certified = certified(alloc, layout, slack)?;
    let answer = with_write(alloc, certificate, certified)?;
    Ok(answer)
}

/// The summary, with a file that is to be written.
fn with_write(alloc: Global, name: &str, certified: CertifiedPlan) -> Result<Answer, AllocError>
    ensures { IfOk result (IsWritten name.now certified) }
{
    let CertifiedPlan { bytes, text, .. } = certified;
    let name = String::from_str(alloc, name)?;
    let mut writes = Listed::new(alloc);
    writes.push(Write { name, bytes })?;
    let said = Said {
        status: Status::Done,
        text,
    };
    Ok(Answer { said, writes })
}

/// A best plan of a design whose constrained paths have this least slack, with its certificate and its summary.
pub fn certified(
    alloc: Global,
    layout: &Layout,
    slack: Option<i64>,
) -> Result<CertifiedPlan, AllocError>
    requires laid { IsLaid layout.now }
    requires met { IsMetSlack (view_in (laid_of layout.now)) slack }
    ensures { IfOk result (IsCertified (laid_of layout.now) slack) }
{
    let layered = &layout.layered;
    let design = &layout.design;
    let plan = best_plan(alloc, &layered.problem)?;
    let bytes = cert_bytes(alloc, layout, &plan)?;
    let text = summary(
        alloc,
        layered,
        &design.flat,
        &design.graph,
        &design.constraints,
        &design.timing,
        &layout.policy,
        slack,
        &plan,
    )?;
    Ok(CertifiedPlan { plan, bytes, text })
}

/// The text of the certificate of a plan that holds.
fn cert_bytes(alloc: Global, layout: &Layout, plan: &Plan) -> Result<Text, AllocError>
    requires laid { IsLaid layout.now }
    requires plan { IsPlanOf layout.now.layered.problem plan.now }
    requires holds { IsHolding layout.now.layered.problem plan.now }
    requires numbers { HasPlanNumbers plan.now }
    ensures { IfOk result (IsCertText (laid_of layout.now) plan.now) }
{
    let cert = cert_of(
        alloc,
        &layout.layered,
        &layout.design.flat,
        &layout.design.constraints,
        plan,
    )?;
    write_cert(alloc, &cert)
}
