ghost use Rattle.std.specs.Prelude.{◌≡◌, ◌<◌, ◌∷◌, ◌++◌, [], All, IfOk, OnOk, codes, length};
ghost use Rattle.std.specs.Fmt.{signed_decimal};
ghost use Rattle.bud_base.specs.Paths.{IsPath};
ghost use Rattle.budget_report.specs.Lines.{line};
ghost use Rattle.budget_report.specs.Subjects.{subject_of, problem_of};
ghost use Rattle.budget_report.specs.DesignPaths.{path_text, IsDrawn};
ghost use Rattle.budget_report.specs.Violations.{violated_text, arc_line, arc_lines, start_line, end_line};

use crate::design_paths::{Route, put_design_path};
use crate::lines::put_number;
use crate::scenes::Scene;
use bud_base::{End, Item, ItemId, Problem, Start, Text};
use line_text::put_whole;
use std::alloc::{AllocError, Global};

/// The lines of a violated path: its slack in ps, its start, its items and its end; for a design also its classes, behind
/// the slack.
pub fn violation_text(
    alloc: Global,
    scene: Scene<'_>,
    slack: i64,
    path: &[ItemId],
    start: u32,
    end: u32,
) -> Result<Text, AllocError>
    requires drawn { IsDrawn (subject_of scene) }
    requires path { IsPath (problem_of (subject_of scene)) (record { start = start; items = path.now; end = end }) }
    ensures { IfOk result (λ text. text ≡ path_text (subject_of scene.entry) slack (record { start = start; items = path.now; end = end })) }
{
    let mut out = Vec::new(alloc);
    match scene {
        Scene::Raw(problem) => put_raw_path(&mut out, problem, slack, path, start, end)?,
        Scene::Design(layered, flat, all) => {
            let route = Route {
                start,
                items: path,
                end,
            };
            put_design_path(alloc, &mut out, layered, flat, all, slack, route)?;
        }
        Scene::Bare | Scene::Pins(_) => unreachable!(),
    }
    Ok(Text::from_vec(out))
}

/// Adds the lines of a violated path of a raw problem.
fn put_raw_path(
    out: &mut Vec<u8>,
    problem: &Problem,
    slack: i64,
    path: &[ItemId],
    start: u32,
    end: u32,
) -> Result<(), AllocError>
    requires { IsPath problem.now (record { start = start; items = path.now; end = end }) }
    ensures { OnOk result (out.new.items ≡ out.old.items ++ violated_text problem.now slack (record { start = start; items = path.now; end = end })) }
{
    out.extend_from_slice(b"violated")?;
    put_whole(out, slack)?;
    out.push(b'\n')?;
    put_start(out, &problem.starts.as_slice()[start as usize])?;
    put_arcs(out, problem.items.as_slice(), path)?;
    put_end(out, &problem.ends.as_slice()[end as usize])
}

/// Adds a line for each item of a path.
fn put_arcs(out: &mut Vec<u8>, items: &[Item], path: &[ItemId]) -> Result<(), AllocError>
    requires { All (λ i. i.0 < length items.now) path.now }
    ensures { OnOk result (out.new.items ≡ out.old.items ++ arc_lines items.now path.now) }
{
    for item in path {
        put_arc(out, &items[item.0 as usize])?;
    }
    Ok(())
}

/// Adds an item's line: its nodes and its least delay.
fn put_arc(out: &mut Vec<u8>, item: &Item) -> Result<(), AllocError>
    ensures { OnOk result (out.new.items ≡ out.old.items ++ arc_line item.now) }
{
    out.extend_from_slice(b"arc")?;
    put_number(out, u64::from(item.from.0))?;
    put_number(out, u64::from(item.to.0))?;
    put_whole(out, item.least)?;
    out.push(b'\n')?;
    Ok(())
}

fn put_start(out: &mut Vec<u8>, start: &Start) -> Result<(), AllocError>
    ensures { OnOk result (out.new.items ≡ out.old.items ++ start_line start.now) }
{
    out.extend_from_slice(b"start")?;
    put_number(out, u64::from(start.node.0))?;
    out.extend_from_slice(b" 0")?;
    put_whole(out, start.offset)?;
    out.push(b'\n')?;
    Ok(())
}

fn put_end(out: &mut Vec<u8>, end: &End) -> Result<(), AllocError>
    ensures { OnOk result (out.new.items ≡ out.old.items ++ end_line end.now) }
{
    out.extend_from_slice(b"end")?;
    put_number(out, u64::from(end.node.0))?;
    out.extend_from_slice(b" 0")?;
    put_whole(out, end.require)?;
    out.push(b'\n')?;
    Ok(())
}
