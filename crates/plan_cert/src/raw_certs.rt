ghost use Rattle.std.specs.Prelude.{◌≡◌, IfOk};
ghost use Rattle.bud_base.specs.Soundness.{IsSound};
ghost use Rattle.bud_plans.specs.Plans.{IsPlanOf, HasPlanNumbers, IsHolding};
ghost use Rattle.cert_text.specs.Certs.{plan_in};
ghost use Rattle.cert_text.specs.Writing.{IsInTextRanges};
ghost use Rattle.plan_cert.specs.Raw.{HasRawLines, IsRawCert};

use crate::named_certs::cert_named;
use bud_base::Problem;
use bud_plans::Plan;
use cert_text::Cert;
use std::alloc::{AllocError, Global};

/// The certificate of a plan of a raw problem: the problem's lines in its order, with its node numbers as names and
/// class 0, and the plan's numbers.
pub fn raw_cert_of(alloc: Global, problem: &Problem, plan: &Plan) -> Result<Cert, AllocError>
    requires { IsPlanOf problem.now plan.now }
    ensures version { IfOk result (λ cert. cert.policy ≡ 1) }
    ensures lines { IfOk result (HasRawLines problem.now) }
    ensures plan { IfOk result (λ cert. plan_in cert ≡ plan.now) }
    // The certificate of a plan that holds is one that `check_raw` accepts.
    ensures holds { IsHolding problem.now plan.now → IfOk result (IsRawCert problem.now) }
    // What `write_cert` asks for, so that the written text is read as the certificate.
    ensures ranges { IsSound problem.now → HasPlanNumbers plan.now → IfOk result IsInTextRanges }
{
    cert_named(alloc, problem, problem, plan)
}
