//! Laws over the definitions. Each holds of all values, and its function does nothing.

ghost use Rattle.std.specs.Prelude.{◌≡◌, ℕ, ℤ, ◌*ℤ◌};
ghost use Rattle.bud_base.specs.declared.problems.Problem.{Problem};
ghost use Rattle.bud_flow.specs.Sums.{sum_below};
ghost use Rattle.bud_flow.specs.Flows.{Flow, StandsAtNodes, gain_of, excess};

/// What a flow gains by numbers at the nodes is the sum of each number times the node's excess.
pub fn exchange_of_sums()
    ensures { (p : Problem) (flow : Flow) (x : ℕ → ℤ) → StandsAtNodes p → gain_of p flow x ≡ sum_below p.nodes (λ v. x v *ℤ excess p flow v) }
{}
