ghost use Rattle.std.specs.Prelude.{◌≡◌, ◌↔◌, ◌<◌, ◌≤◌, ◌^◌, length, min, IsTrue, MatchOption};
ghost use Rattle.bud_base.specs.Paths.{item_at, start_at, end_at};
ghost use Rattle.bud_base.specs.Soundness.{IsSound};
ghost use Rattle.plan_cert.specs.Certificates.{AreNamed, HasLineCounts, HasLines, IsWrongLine};
ghost use Rattle.plan_cert.specs.Failures.{AllBelow, IsFailure};
ghost use Rattle.plan_cert.specs.Lines.{IsClassLine, IsNodeLine, IsItemLine, IsStartLine, IsEndLine};

use crate::answers::CertPlace;
use crate::names::{names_flow, names_item, names_node};
use crate::naming::Naming;
use bud_base::{End, Item, NodeId, Problem, Start};
use cert_text::{Cert, CertClass, CertFlow, CertItem, CertNode};

// The first line that isn't the problem's, or that there are too few or too many.
pub fn first_wrong_line<N: Naming>(names: &N, problem: &Problem, cert: &Cert) -> Option<CertPlace>
    requires sound { IsSound problem.now }
    requires named { AreNamed (N.has names.now) problem.now }
    requires classes { length (N.names names.now).classes < 2 ^ 32 }
    ensures { MatchOption result (HasLines (N.names names.now) problem.now cert.now) (IsWrongLine (N.names names.now) problem.now cert.now) }
{
    if let Some(k) = first_wrong_class(names, cert.classes.as_slice()) {
        return Some(CertPlace::Class(k));
    }
    if let Some(k) = first_wrong_node(names, problem.nodes, cert.nodes.as_slice()) {
        return Some(CertPlace::Node(k));
    }
    if let Some(i) = first_wrong_item(names, problem.items.as_slice(), cert.items.as_slice()) {
        return Some(CertPlace::Item(i));
    }
    if let Some(s) = first_wrong_start(names, problem.starts.as_slice(), cert.starts.as_slice()) {
        return Some(CertPlace::Start(s));
    }
    if let Some(e) = first_wrong_end(names, problem.ends.as_slice(), cert.ends.as_slice()) {
        return Some(CertPlace::End(e));
    }
    if has_counts(names, problem, cert) {
        None
    } else {
        Some(CertPlace::Count)
    }
}

// Whether there are as many lines as there are classes, nodes, items, starts and ends.
fn has_counts<N: Naming>(names: &N, problem: &Problem, cert: &Cert) -> bool
    ensures { IsTrue result ↔ HasLineCounts (N.names names.now) problem.now cert.now }
{
    cert.classes.len() == names.class_count()
        && cert.nodes.len() == problem.nodes as usize
        && cert.items.len() == problem.items.len()
        && cert.starts.len() == problem.starts.len()
        && cert.ends.len() == problem.ends.len()
}

// The first line that isn't its class's.
fn first_wrong_class<N: Naming>(names: &N, lines: &[CertClass]) -> Option<u32>
    requires { length (N.names names.now).classes < 2 ^ 32 }
    ensures { IsFailure (IsClassLine (N.names names.now).classes lines.now) (min (length (N.names names.now).classes) (length lines.now)) result }
{
    let count = lines.len().min(names.class_count());
    for k in 0..count {
        let line = &lines[k];
        if !names.is_class(k, line) {
            return Some(k as u32);
        }
    }
    None
}

// The first line that isn't its node's.
fn first_wrong_node<N: Naming>(names: &N, nodes: u32, lines: &[CertNode]) -> Option<u32>
    requires { AllBelow (N.has names.now) nodes }
    ensures { IsFailure (IsNodeLine (N.names names.now) lines.now) (min nodes (length lines.now)) result }
{
    let count = lines.len().min(nodes as usize);
    for k in 0..count {
        let line = &lines[k];
        if !names_node(names, line, NodeId(k as u32)) {
            return Some(k as u32);
        }
    }
    None
}

// The first line that isn't its item's.
fn first_wrong_item<N: Naming>(names: &N, items: &[Item], lines: &[CertItem]) -> Option<u32>
    requires few { length items.now ≤ 4194304 }
    requires named { AllBelow (λ i. N.has names.now (item_at items.now i).from.0 × N.has names.now (item_at items.now i).to.0) (length items.now) }
    ensures { IsFailure (IsItemLine (N.names names.now) items.now lines.now) (min (length items.now) (length lines.now)) result }
{
    let count = items.len().min(lines.len());
    for i in 0..count {
        let line = &lines[i];
        if !names_item(names, line, &items[i]) {
            return Some(i as u32);
        }
    }
    None
}

// The first line that isn't its start's.
fn first_wrong_start<N: Naming>(names: &N, starts: &[Start], lines: &[CertFlow]) -> Option<u32>
    requires few { length starts.now ≤ 8388608 }
    requires named { AllBelow (λ s. N.has names.now (start_at starts.now s).node.0) (length starts.now) }
    ensures { IsFailure (IsStartLine (N.names names.now) starts.now lines.now) (min (length starts.now) (length lines.now)) result }
{
    let count = starts.len().min(lines.len());
    for s in 0..count {
        let line = &lines[s];
        if !names_flow(names, line, starts[s].node) {
            return Some(s as u32);
        }
    }
    None
}

// The first line that isn't its end's.
fn first_wrong_end<N: Naming>(names: &N, ends: &[End], lines: &[CertFlow]) -> Option<u32>
    requires few { length ends.now ≤ 8388608 }
    requires named { AllBelow (λ e. N.has names.now (end_at ends.now e).node.0) (length ends.now) }
    ensures { IsFailure (IsEndLine (N.names names.now) ends.now lines.now) (min (length ends.now) (length lines.now)) result }
{
    let count = ends.len().min(lines.len());
    for e in 0..count {
        let line = &lines[e];
        if !names_flow(names, line, ends[e].node) {
            return Some(e as u32);
        }
    }
    None
}
