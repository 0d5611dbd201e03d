ghost use Rattle.std.specs.Prelude.{◌≡◌, ◌<◌, ◌≤◌, ◌+◌, ◌≤ℤ◌, ◌*ℤ◌, ℕ, pos, length, map, All, IfOk};
ghost use Rattle.bud_base.specs.Paths.{item_at};
ghost use Rattle.bud_base.specs.Soundness.{IsSoundItem};
ghost use Rattle.bud_flow.specs.Sums.{number_at};
ghost use Rattle.residual.specs.Bounds.{IsWithin};
ghost use Rattle.duals.specs.Duals.{budget_by};
ghost use Rattle.duals.specs.Terms.{IsSmallProduct, IsSmallTotal};

use bud_base::Item;
use residual::Net;
use std::alloc::{AllocError, Global};

/// The lesser of an item's greatest and what the potentials gain along it, in ps.
fn budget_of(net: &Net, item: &Item) -> i64
    requires { IsSoundItem net.now.nodes item.now }
    ensures { result ≡ budget_by net.now.potentials item.now }
{
    let gain = net.potential(item.to) - net.potential(item.from);
    if gain < item.greatest {
        gain
    } else {
        item.greatest
    }
}

/// The budgets of items by the potentials of their nodes.
pub fn budgets_by(alloc: Global, net: &Net, items: &[Item]) -> Result<Vec<i64>, AllocError>
    requires { All (IsSoundItem net.now.nodes) items.now }
    ensures { IfOk result (λ budgets. budgets.items ≡ map (budget_by net.now.potentials) items.now) }
{
    items.iter().map(|item| budget_of(net, item)).collect(alloc)
}

/// An item's weight times a budget.
fn product(weight: u32, budget: i64) -> i128
    requires weight { weight ≤ 1048576 }
    requires least { pos 0 ≤ℤ budget }
    requires most { budget ≤ℤ pos 2000000000 }
    ensures value { result ≡ pos weight *ℤ budget }
    ensures small { IsSmallProduct result }
{
    i128::from(weight) * i128::from(budget)
}

/// The sum of weight times budget over items.
pub fn weight_of(items: &[Item], budgets: &[i64]) -> i128
    requires size { length budgets.now ≡ length items.now }
    requires weights { All (λ item. item.weight ≤ 1048576) items.now }
    requires budgets { All (λ budget. (pos 0 ≤ℤ budget) × (budget ≤ℤ pos 2000000000)) budgets.now }
    ensures { IsSmallTotal (λ i. pos (item_at items.now i).weight *ℤ number_at budgets.now i) (length items.now) result }
{
    let mut total: i128 = 0;
    for i in 0..items.len() {
        total += product(items[i].weight, budgets[i]);
    }
    total
}
