ghost use Rattle.std.specs.Prelude.{◌≡◌, ◌<◌, ◌∷◌, ◌++◌, All, OnOk, codes, length};
ghost use Rattle.budget_report.specs.Lines.{line, nodes_of};
ghost use Rattle.budget_report.specs.Causes.{numbered_fields, problem_fields, problem_rest, ring_lines, HasItems};

use crate::lines::put_number;
use bud_base::{Item, ItemId, Problem, ProblemFault};
use line_text::put_field;
use std::alloc::AllocError;

/// Adds the lines of a problem that isn't sound.
pub fn put_problem_fault(
    out: &mut Vec<u8>,
    problem: &Problem,
    fault: &ProblemFault,
) -> Result<(), AllocError>
    requires { HasItems problem.now fault.now }
    ensures { OnOk result (out.new.items ≡ out.old.items ++ line (problem_fields fault.now) ++ problem_rest problem.now.items fault.now) }
{
    match fault {
        ProblemFault::BadNode(node) => put_design(out, b"bad-node", u64::from(*node)),
        ProblemFault::BadBounds(item) => put_design(out, b"bad-bounds", u64::from(item.0)),
        ProblemFault::BadTime(node) => put_design(out, b"bad-time", u64::from(node.0)),
        ProblemFault::TooLarge(count) => put_numbered(out, b"limit", b"size", *count),
        ProblemFault::Cycle(ring) => put_cycle(out, problem.items.as_slice(), ring.as_slice()),
        ProblemFault::Dead(node) => put_design(out, b"dead", u64::from(node.0)),
        ProblemFault::NoMemory => out.extend_from_slice(b"memory\n"),
    }
}

fn put_design(out: &mut Vec<u8>, word: &[u8], number: u64) -> Result<(), AllocError>
    ensures { OnOk result (out.new.items ≡ out.old.items ++ line (numbered_fields (codes "design") word.now number)) }
{
    put_numbered(out, b"design", word, number)
}

/// Adds a line of two words and a number.
fn put_numbered(out: &mut Vec<u8>, title: &[u8], word: &[u8], number: u64) -> Result<(), AllocError>
    ensures { OnOk result (out.new.items ≡ out.old.items ++ line (numbered_fields title.now word.now number)) }
{
    out.extend_from_slice(title)?;
    put_field(out, word)?;
    put_number(out, number)?;
    out.push(b'\n')?;
    Ok(())
}

/// Adds the lines of a cycle of items: their count, and a line for each.
fn put_cycle(out: &mut Vec<u8>, items: &[Item], ring: &[ItemId]) -> Result<(), AllocError>
    requires { All (λ i. i.0 < length items.now) ring.now }
    ensures { OnOk result (out.new.items ≡ out.old.items ++ line (numbered_fields (codes "design") (codes "cycle") (length ring.now)) ++ ring_lines items.now ring.now) }
{
    put_design(out, b"cycle", ring.len() as u64)?;
    put_ring(out, items, ring)
}

fn put_ring(out: &mut Vec<u8>, items: &[Item], ring: &[ItemId]) -> Result<(), AllocError>
    requires { All (λ i. i.0 < length items.now) ring.now }
    ensures { OnOk result (out.new.items ≡ out.old.items ++ ring_lines items.now ring.now) }
{
    for item in ring {
        put_nodes(out, &items[item.0 as usize])?;
    }
    Ok(())
}

/// Adds the line of an item of a cycle.
fn put_nodes(out: &mut Vec<u8>, item: &Item) -> Result<(), AllocError>
    ensures { OnOk result (out.new.items ≡ out.old.items ++ line (codes "arc" ∷ nodes_of item.now)) }
{
    out.extend_from_slice(b"arc")?;
    put_number(out, u64::from(item.from.0))?;
    put_number(out, u64::from(item.to.0))?;
    out.push(b'\n')?;
    Ok(())
}
