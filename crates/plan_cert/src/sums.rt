ghost use Rattle.std.specs.Prelude.{◌≡◌, ◌↔◌, IsTrue, IfOk};
ghost use Rattle.bud_base.specs.Soundness.{IsSound};
ghost use Rattle.bud_plans.specs.Plans.{HasPlanNumbers};
ghost use Rattle.cert_text.specs.Certs.{plan_in};
ghost use Rattle.plan_cert.specs.Failures.{IsFailure};
ghost use Rattle.plan_cert.specs.Numbers.{HasCounts, IsKeptAt};

use crate::node_sums::first_unkept;
use bud_base::Problem;
use cert_text::Cert;
use std::alloc::{AllocError, Global};
use std::marker::Model;

/// Room for a running sum at each node of a problem, so that a check takes no memory. Contracts see it as the number of nodes.
#[derive(Debug, Drop)]
pub struct Sums {
    sums: Vec<i128>,
}

impl Model for Sums {
    ghost use Rattle.std.specs.Prelude.{ℕ, length};

    ghost Value = { ℕ };

    ghost view = { λ sums. length sums.sums.items };
}

impl Sums {
    /// Room for the problem's nodes.
    pub fn new(alloc: Global, problem: &Problem) -> Result<Sums, AllocError>
        ensures nodes { IfOk result (λ nodes. nodes ≡ problem.now.nodes) }
    {
        let sums = vec![in alloc; 0; problem.nodes as usize]?;
        Ok(Sums { sums })
    }

    /// Whether it was made for a problem with as many nodes.
    pub fn fits(&self, problem: &Problem) -> bool
        ensures { IsTrue result ↔ (self.now ≡ problem.now.nodes) }
    {
        self.sums.len() == problem.nodes as usize
    }

    // The first node into which more or less comes than goes out.
    pub fn first_unkept(&mut self, problem: &Problem, cert: &Cert) -> Option<u32>
        requires sound { IsSound problem.now }
        requires counts { HasCounts problem.now cert.now }
        requires numbers { HasPlanNumbers (plan_in cert.now) }
        requires nodes { self.old ≡ problem.now.nodes }
        ensures first { IsFailure (IsKeptAt problem.now (plan_in cert.now)) problem.now.nodes result }
        ensures nodes { self.new ≡ self.old }
    {
        first_unkept(self.sums.as_mut_slice(), problem, cert)
    }
}
