ghost use Rattle.std.specs.Prelude.{◌≡◌, ◌<◌, ◌^◌, length, map, IfOk};
ghost use Rattle.std.specs.List.{AllByRecursion};
ghost use Rattle.bud_base.specs.Paths.{item_at, start_at, end_at};
ghost use Rattle.bud_base.specs.Soundness.{IsSound};
ghost use Rattle.bud_plans.specs.Plans.{IsPlanOf, HasPlanNumbers, IsHolding};
ghost use Rattle.cert_text.specs.Certs.{plan_in};
ghost use Rattle.cert_text.specs.Writing.{IsInTextRanges};
ghost use Rattle.plan_cert.specs.Certificates.{AreNamed, HasLines, IsCertOf};
ghost use Rattle.plan_cert.specs.Failures.{AllBelow};
ghost use Rattle.plan_cert.specs.Lines.{IsNodeLine, IsItemLine, IsStartLine, IsEndLine};
ghost use Rattle.plan_cert.specs.Names.{AreTextNames, HasClassNumbers};

use crate::naming::Naming;
use bud_base::{End, Item, NodeId, Problem, Start};
use bud_plans::Plan;
use cert_text::{Cert, CertFlow, CertFlows, CertItem, CertItems, CertNode, CertNodes};
use std::alloc::{AllocError, Global};

// The lines of nodes with these arrivals.
fn node_lines<N: Naming>(
    alloc: Global,
    names: &N,
    nodes: u32,
    arrivals: &[i64],
) -> Result<CertNodes, AllocError>
    requires size { length arrivals.now ≡ nodes }
    requires named { AllBelow (N.has names.now) nodes }
    ensures names { IfOk result (λ lines. AllBelow (IsNodeLine (N.names names.now) lines) (length arrivals.now)) }
    ensures numbers { IfOk result (λ lines. map (λ line. line.arrival) lines ≡ arrivals.now) }
{
    let mut lines = Vec::new(alloc);
    for k in 0..arrivals.len() {
        let node = NodeId(k as u32);
        lines.push(CertNode {
            name: names.name_of(alloc, node)?,
            class: names.class_of(node),
            arrival: arrivals[k],
        })?;
    }
    Ok(CertNodes::from_vec(lines))
}

// The lines of items with these budgets and flows.
fn item_lines<N: Naming>(
    alloc: Global,
    names: &N,
    items: &[Item],
    budgets: &[i64],
    flows: &[i64],
) -> Result<CertItems, AllocError>
    requires budgets { length budgets.now ≡ length items.now }
    requires flows { length flows.now ≡ length items.now }
    requires named { AllBelow (λ i. N.has names.now (item_at items.now i).from.0 × N.has names.now (item_at items.now i).to.0) (length items.now) }
    ensures names { IfOk result (λ lines. AllBelow (IsItemLine (N.names names.now) items.now lines) (length items.now)) }
    ensures budgets { IfOk result (λ lines. map (λ line. line.budget) lines ≡ budgets.now) }
    ensures flows { IfOk result (λ lines. map (λ line. line.flow) lines ≡ flows.now) }
{
    let mut lines = Vec::new(alloc);
    for i in 0..items.len() {
        lines.push(CertItem {
            from: names.name_of(alloc, items[i].from)?,
            to: names.name_of(alloc, items[i].to)?,
            class: names.class_of(items[i].from),
            budget: budgets[i],
            flow: flows[i],
        })?;
    }
    Ok(CertItems::from_vec(lines))
}

// The lines of starts with these flows.
fn start_lines<N: Naming>(
    alloc: Global,
    names: &N,
    starts: &[Start],
    flows: &[i64],
) -> Result<CertFlows, AllocError>
    requires flows { length flows.now ≡ length starts.now }
    requires named { AllBelow (λ s. N.has names.now (start_at starts.now s).node.0) (length starts.now) }
    ensures names { IfOk result (λ lines. AllBelow (IsStartLine (N.names names.now) starts.now lines) (length starts.now)) }
    ensures flows { IfOk result (λ lines. map (λ line. line.flow) lines ≡ flows.now) }
{
    let mut lines = Vec::new(alloc);
    for s in 0..starts.len() {
        lines.push(CertFlow {
            name: names.name_of(alloc, starts[s].node)?,
            class: names.class_of(starts[s].node),
            flow: flows[s],
        })?;
    }
    Ok(CertFlows::from_vec(lines))
}

// The lines of ends with these flows.
fn end_lines<N: Naming>(
    alloc: Global,
    names: &N,
    ends: &[End],
    flows: &[i64],
) -> Result<CertFlows, AllocError>
    requires flows { length flows.now ≡ length ends.now }
    requires named { AllBelow (λ e. N.has names.now (end_at ends.now e).node.0) (length ends.now) }
    ensures names { IfOk result (λ lines. AllBelow (IsEndLine (N.names names.now) ends.now lines) (length ends.now)) }
    ensures flows { IfOk result (λ lines. map (λ line. line.flow) lines ≡ flows.now) }
{
    let mut lines = Vec::new(alloc);
    for e in 0..ends.len() {
        lines.push(CertFlow {
            name: names.name_of(alloc, ends[e].node)?,
            class: names.class_of(ends[e].node),
            flow: flows[e],
        })?;
    }
    Ok(CertFlows::from_vec(lines))
}

// The lines of the problem with the numbers of the plan.
fn cert_lines<N: Naming>(
    alloc: Global,
    names: &N,
    problem: &Problem,
    plan: &Plan,
) -> Result<Cert, AllocError>
    requires named { AreNamed (N.has names.now) problem.now }
    requires classes { length (N.names names.now).classes < 2 ^ 32 }
    requires plan { IsPlanOf problem.now plan.now }
    ensures version { IfOk result (λ cert. cert.policy ≡ (N.names names.now).version) }
    ensures classes { IfOk result (λ cert. cert.classes ≡ (N.names names.now).classes) }
    ensures class_numbers { IfOk result (λ cert. AllByRecursion HasClassNumbers cert.classes) }
    ensures lines { IfOk result (HasLines (N.names names.now) problem.now) }
    ensures plan { IfOk result (λ cert. plan_in cert ≡ plan.now) }
{
    let policy = names.version();
    let classes = names.class_lines(alloc)?;
    let nodes = node_lines(alloc, names, problem.nodes, plan.arrivals.as_slice())?;
    let items = item_lines(
        alloc,
        names,
        problem.items.as_slice(),
        plan.budgets.as_slice(),
        plan.flow.as_slice(),
    )?;
    let starts = start_lines(
        alloc,
        names,
        problem.starts.as_slice(),
        plan.start_flow.as_slice(),
    )?;
    let ends = end_lines(
        alloc,
        names,
        problem.ends.as_slice(),
        plan.end_flow.as_slice(),
    )?;
    Ok(Cert {
        policy,
        classes,
        nodes,
        items,
        starts,
        ends,
        weight: plan.weight,
    })
}

/// The certificate of a plan of a problem whose lines have these names: the policy's version, the problem's lines in
/// its order with its names, and the plan's numbers.
pub fn cert_named<N: Naming>(
    alloc: Global,
    names: &N,
    problem: &Problem,
    plan: &Plan,
) -> Result<Cert, AllocError>
    requires named { AreNamed (N.has names.now) problem.now }
    requires classes { length (N.names names.now).classes < 2 ^ 32 }
    requires plan { IsPlanOf problem.now plan.now }
    ensures version { IfOk result (λ cert. cert.policy ≡ (N.names names.now).version) }
    ensures lines { IfOk result (HasLines (N.names names.now) problem.now) }
    ensures plan { IfOk result (λ cert. plan_in cert ≡ plan.now) }
    // The certificate of a plan that holds is one that `check_named` accepts.
    ensures holds { IsHolding problem.now plan.now → IfOk result (IsCertOf (N.names names.now) problem.now) }
    // What `write_cert` asks for, so that the written text is read as the certificate.
    ensures ranges { IsSound problem.now → AreTextNames (N.names names.now) problem.now → HasPlanNumbers plan.now
        → IfOk result IsInTextRanges }
{
    cert_lines(alloc, names, problem, plan)
}
