//! The lines of certificates that don't hold.
ghost use Rattle.std.specs.Prelude.{◌≡◌, ◌<◌, ◌++◌, OnOk, length};
ghost use Rattle.std.specs.List.{flat_map};
ghost use Rattle.line_text.specs.Written.{spaced};
ghost use Rattle.budget_report.specs.Lines.{line};
ghost use Rattle.budget_report.specs.Subjects.{subject_of, problem_of};
ghost use Rattle.budget_report.specs.DesignPaths.{IsOfDesign};
ghost use Rattle.budget_report.specs.Certificates.{numbered_node, numbered_item, named_node, named_item, node_words, item_words, item_fields, node_fields, negative_fields, version_fields, weight_fields, cert_fields, HasNodeOf, HasItemOf, IsOf};

use crate::design_paths::{class_of_node, node_name};
use crate::lines::{put_number, put_weight};
use crate::scenes::Scene;
use bud_base::{Item, NodeId, Problem};
use bud_design::Layered;
use flat_design::Flat;
use line_text::put_field;
use plan_cert::{CertFault, CertPlace};
use std::alloc::AllocError;

/// Adds the line of a certificate's first fault; the problem is that of the scene.
pub fn put_cert_fault(
    out: &mut Vec<u8>,
    scene: Scene<'_>,
    problem: &Problem,
    fault: CertFault,
) -> Result<(), AllocError>
    requires problem { problem.now ≡ problem_of (subject_of scene) }
    requires of { IsOf (subject_of scene) fault }
    ensures { OnOk result (out.new.items ≡ out.old.items ++ line (cert_fields (subject_of scene.entry) fault)) }
{
    let items = problem.items.as_slice();
    let starts = problem.starts.as_slice();
    let ends = problem.ends.as_slice();
    match fault {
        CertFault::Version(policy, written) => put_versions(out, policy, written),
        CertFault::Shape(_) => out.extend_from_slice(b"certificate shape\n"),
        CertFault::Bounds(item) => put_item(out, scene, b"bounds", &items[item.0 as usize]),
        CertFault::Arrival(item) => put_item(out, scene, b"arrival", &items[item.0 as usize]),
        CertFault::Start(start) => put_node(out, scene, b"start", starts[start as usize].node),
        CertFault::End(end) => put_node(out, scene, b"end", ends[end as usize].node),
        CertFault::NegativeFlow(place) => put_negative(out, scene, problem, place),
        CertFault::Balance(node) => put_node(out, scene, b"balance", node),
        CertFault::Weight(weight, other) => put_weights(out, weight, other),
    }
}

fn put_versions(out: &mut Vec<u8>, policy: u32, written: u32) -> Result<(), AllocError>
    ensures { OnOk result (out.new.items ≡ out.old.items ++ line (version_fields policy written)) }
{
    out.extend_from_slice(b"certificate version")?;
    put_number(out, u64::from(policy))?;
    put_number(out, u64::from(written))?;
    out.push(b'\n')?;
    Ok(())
}

fn put_weights(out: &mut Vec<u8>, weight: i128, other: i128) -> Result<(), AllocError>
    ensures { OnOk result (out.new.items ≡ out.old.items ++ line (weight_fields weight other)) }
{
    out.extend_from_slice(b"certificate weight")?;
    put_weight(out, weight)?;
    put_weight(out, other)?;
    out.push(b'\n')?;
    Ok(())
}

/// Adds the line of a flow below 0.
fn put_negative(
    out: &mut Vec<u8>,
    scene: Scene<'_>,
    problem: &Problem,
    place: CertPlace,
) -> Result<(), AllocError>
    requires problem { problem.now ≡ problem_of (subject_of scene) }
    requires of { IsOf (subject_of scene) (CertFault.NegativeFlow place) }
    ensures { OnOk result (out.new.items ≡ out.old.items ++ line (negative_fields (subject_of scene.entry) place)) }
{
    match place {
        CertPlace::Item(item) => {
            let items = problem.items.as_slice();
            put_item(out, scene, b"negative", &items[item as usize])
        }
        CertPlace::Start(start) => {
            let starts = problem.starts.as_slice();
            put_node(out, scene, b"negative", starts[start as usize].node)
        }
        CertPlace::End(end) => {
            let ends = problem.ends.as_slice();
            put_node(out, scene, b"negative", ends[end as usize].node)
        }
        CertPlace::Class(_) | CertPlace::Node(_) | CertPlace::Count => unreachable!(),
    }
}

/// Adds the line of a word and an item.
fn put_item(out: &mut Vec<u8>, scene: Scene<'_>, word: &[u8], item: &Item) -> Result<(), AllocError>
    requires { HasItemOf (subject_of scene) item.now }
    ensures { OnOk result (out.new.items ≡ out.old.items ++ line (item_fields (subject_of scene.entry) word.now item.now)) }
{
    out.extend_from_slice(b"certificate")?;
    put_field(out, word)?;
    put_item_words(out, scene, item)?;
    out.push(b'\n')?;
    Ok(())
}

/// Adds an item by its nodes and a class.
fn put_item_words(out: &mut Vec<u8>, scene: Scene<'_>, item: &Item) -> Result<(), AllocError>
    requires { HasItemOf (subject_of scene) item.now }
    ensures { OnOk result (out.new.items ≡ out.old.items ++ flat_map spaced (item_words (subject_of scene.entry) item.now)) }
{
    match scene {
        Scene::Raw(_) => put_numbered_item(out, item),
        Scene::Design(layered, flat, _) => put_named_item(out, layered, flat, item),
        Scene::Bare | Scene::Pins(_) => Ok(()),
    }
}

fn put_numbered_item(out: &mut Vec<u8>, item: &Item) -> Result<(), AllocError>
    ensures { OnOk result (out.new.items ≡ out.old.items ++ flat_map spaced (numbered_item item.now)) }
{
    put_number(out, u64::from(item.from.0))?;
    put_number(out, u64::from(item.to.0))?;
    put_field(out, b"0")
}

fn put_named_item(
    out: &mut Vec<u8>,
    layered: &Layered,
    flat: &Flat,
    item: &Item,
) -> Result<(), AllocError>
    requires layered { IsOfDesign layered.now flat.now }
    requires from { item.now.from.0 < length layered.now.nodes }
    requires to { item.now.to.0 < length layered.now.nodes }
    ensures { OnOk result (out.new.items ≡ out.old.items ++ flat_map spaced (named_item layered.now flat.now item.now)) }
{
    let alloc = *out.allocator();
    let from = node_name(alloc, flat, layered, item.from)?;
    let to = node_name(alloc, flat, layered, item.to)?;
    put_field(out, from.as_slice())?;
    put_field(out, to.as_slice())?;
    put_number(out, u64::from(class_of_node(layered, item.from)))
}

/// Adds the line of a word and a node.
fn put_node(
    out: &mut Vec<u8>,
    scene: Scene<'_>,
    word: &[u8],
    node: NodeId,
) -> Result<(), AllocError>
    requires { HasNodeOf (subject_of scene) node.0 }
    ensures { OnOk result (out.new.items ≡ out.old.items ++ line (node_fields (subject_of scene.entry) word.now node.0)) }
{
    out.extend_from_slice(b"certificate")?;
    put_field(out, word)?;
    put_node_words(out, scene, node)?;
    out.push(b'\n')?;
    Ok(())
}

/// Adds a node and its class.
fn put_node_words(out: &mut Vec<u8>, scene: Scene<'_>, node: NodeId) -> Result<(), AllocError>
    requires { HasNodeOf (subject_of scene) node.0 }
    ensures { OnOk result (out.new.items ≡ out.old.items ++ flat_map spaced (node_words (subject_of scene.entry) node.0)) }
{
    match scene {
        Scene::Raw(_) => put_numbered_node(out, node),
        Scene::Design(layered, flat, _) => put_named_node(out, layered, flat, node),
        Scene::Bare | Scene::Pins(_) => Ok(()),
    }
}

fn put_numbered_node(out: &mut Vec<u8>, node: NodeId) -> Result<(), AllocError>
    ensures { OnOk result (out.new.items ≡ out.old.items ++ flat_map spaced (numbered_node node.0)) }
{
    put_number(out, u64::from(node.0))?;
    put_field(out, b"0")
}

fn put_named_node(
    out: &mut Vec<u8>,
    layered: &Layered,
    flat: &Flat,
    node: NodeId,
) -> Result<(), AllocError>
    requires layered { IsOfDesign layered.now flat.now }
    requires node { node.0 < length layered.now.nodes }
    ensures { OnOk result (out.new.items ≡ out.old.items ++ flat_map spaced (named_node layered.now flat.now node.0)) }
{
    let name = node_name(*out.allocator(), flat, layered, node)?;
    put_field(out, name.as_slice())?;
    put_number(out, u64::from(class_of_node(layered, node)))
}
