//! The files that a plan takes beside those of its design.
ghost use Rattle.std.specs.Prelude.{All};
ghost use Rattle.bud_plans.specs.Plans.{HasPlanNumbers};
ghost use Rattle.cert_text.specs.Certs.{plan_in};
ghost use Rattle.policy_lines.specs.Shares.{IsSoundLine};
ghost use Rattle.budget_plans.specs.Files.{policies, certificates};

use bud_base::{Text, TextFault};
use bud_design::Policy;
use budget_report::Cause;
use budget_steps::Input;
use cert_text::{Cert, read_cert};
use policy_reader::read_policy;
use std::alloc::Global;

/// A policy.
pub struct PolicyText;

impl Input for PolicyText {
    type Value = Policy;

    type Fault = TextFault;

    ghost grammar = { policies };

    ghost is_value = { λ policy. All IsSoundLine policy.lines };

    fn read(alloc: Global, text: &[u8]) -> Result<Policy, TextFault> {
        read_policy(alloc, text)
    }

    fn cause(name: Text, fault: TextFault) -> Cause {
        Cause::Text(name, fault)
    }
}

/// A certificate.
pub struct CertText;

impl Input for CertText {
    type Value = Cert;

    type Fault = TextFault;

    ghost grammar = { certificates };

    ghost is_value = { λ cert. HasPlanNumbers (plan_in cert) };

    fn read(alloc: Global, text: &[u8]) -> Result<Cert, TextFault> {
        read_cert(alloc, text)
    }

    fn cause(name: Text, fault: TextFault) -> Cause {
        Cause::Text(name, fault)
    }
}
