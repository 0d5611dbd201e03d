//! Best budgets of a made design, or a worst violated path.
ghost use Rattle.std.specs.Prelude.{◌≡◌, ◌++◌, IfOk, OnOk};
ghost use Rattle.budget_plans.specs.Layouts.{IsLaid, laid_of, view_in};
ghost use Rattle.budget_plans.specs.Plans.{IsMetSlack};
ghost use Rattle.budget_steps.specs.Outcomes.{done};
ghost use Rattle.budget_steps.specs.Steps.{Follows};
ghost use Rattle.budget_makes.specs.Makes.{IsBestPlan, made, made_text, size_line, size_text};

use bud_base::Text;
use bud_plans::Plan;
use budget_designs::violated;
use budget_plans::{Layout, best_plan};
use budget_steps::{Answer, Stop};
use itoa::Buffer;
use least_check::{Least, LeastCheck};
use line_text::put_field;
use plan_report::put_head;
use std::alloc::{AllocError, Global};

/// What comes of a made design that is laid out.
pub fn made(alloc: Global, layout: &Layout, gates: u32, registers: u32) -> Result<Answer, Stop>
    requires { IsLaid layout.now }
    ensures { Follows (made (laid_of layout.now) gates registers) result }
{
    let mut check = LeastCheck::new(alloc, &layout.layered.problem)?;
    match check.run(&layout.layered.problem) {
        Least::NoPaths => met(alloc, layout, None, gates, registers),
        Least::Meets(slack) => met(alloc, layout, Some(slack), gates, registers),
        Least::Violated(slack) => violated(
            alloc,
            &layout.design.flat,
            &layout.design.constraints,
            &layout.layered,
            &check,
            slack,
        ),
    }
}

/// The answer where no constrained path is violated.
fn met(
    alloc: Global,
    layout: &Layout,
    slack: Option<i64>,
    gates: u32,
    registers: u32,
) -> Result<Answer, Stop>
    requires laid { IsLaid layout.now }
    requires met { IsMetSlack (view_in (laid_of layout.now)) slack }
    ensures { Follows (made (laid_of layout.now) gates registers) result }
{
    let plan = solved(alloc, layout, slack)?;
    let text = made_text(alloc, layout, slack, &plan, gates, registers)?;
    Ok(Answer::done(alloc, text))
}

/// A best plan of a design that is laid out.
fn solved(alloc: Global, layout: &Layout, slack: Option<i64>) -> Result<Plan, AllocError>
    requires laid { IsLaid layout.now }
    requires met { IsMetSlack (view_in (laid_of layout.now)) slack }
    ensures { IfOk result (IsBestPlan (laid_of layout.now)) }
{
    best_plan(alloc, &layout.layered.problem)
}

/// How large the design is, and the first lines of its summary.
fn made_text(
    alloc: Global,
    layout: &Layout,
    slack: Option<i64>,
    plan: &Plan,
    gates: u32,
    registers: u32,
) -> Result<Text, AllocError>
    ensures { IfOk result (λ text. text ≡ made_text gates registers slack (laid_of layout.now) plan.now) }
{
    let mut out = Vec::new(alloc);
    put_sizes(&mut out, gates, registers)?;
    put_head(&mut out, slack, &layout.layered, plan.weight)?;
    Ok(Text::from_vec(out))
}

/// Adds how many gates and registers there are.
fn put_sizes(out: &mut Vec<u8>, gates: u32, registers: u32) -> Result<(), AllocError>
    ensures { OnOk result (out.new.items ≡ out.old.items ++ size_text gates registers) }
{
    put_size(out, b"gates", gates)?;
    put_size(out, b"registers", registers)
}

/// Adds a line of a word and a number.
fn put_size(out: &mut Vec<u8>, word: &[u8], number: u32) -> Result<(), AllocError>
    ensures { OnOk result (out.new.items ≡ out.old.items ++ size_line word.now number) }
{
    out.extend_from_slice(word)?;
    let mut buffer = Buffer::new();
    put_field(out, buffer.format(number).as_bytes())?;
    out.push(b'\n')?;
    Ok(())
}
