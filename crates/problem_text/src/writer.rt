ghost use Rattle.std.specs.Prelude.{◌≡◌, ◌++◌, ◌∷◌, [], OnOk, IfOk, codes, decimal};
ghost use Rattle.std.specs.List.{flat_map};
ghost use Rattle.line_text.specs.Written.{written};
ghost use Rattle.problem_text.specs.Problems.{Reads};
ghost use Rattle.problem_text.specs.Writing.{nodes_line, item_line, start_line, end_line, text_of, IsInTextRanges};

use bud_base::{End, Item, Problem, Start, Text};
use line_text::{put_count, put_field, put_whole};
use std::alloc::{AllocError, Global};

/// Writes a problem as a text, in time linear in the text.
pub fn write_problem(alloc: Global, problem: &Problem) -> Result<Text, AllocError>
    ensures text { IfOk result (λ text. text ≡ text_of problem.now) }
    // The text reads as the problem.
    ensures reads { IsInTextRanges problem.now → IfOk result (λ text. Reads text problem.now) }
{
    write_lines(alloc, problem)
}

fn write_lines(alloc: Global, problem: &Problem) -> Result<Text, AllocError>
    ensures { IfOk result (λ text. text ≡ text_of problem.now) }
{
    let mut out = Vec::new(alloc);
    put_version(&mut out)?;
    put_nodes(&mut out, problem.nodes)?;
    put_items(&mut out, problem.items.as_slice())?;
    put_starts(&mut out, problem.starts.as_slice())?;
    put_ends(&mut out, problem.ends.as_slice())?;
    Ok(Text::from_vec(out))
}

fn put_version(out: &mut Vec<u8>) -> Result<(), AllocError>
    ensures { OnOk result (out.new.items ≡ out.old.items ++ written (codes "problem") (codes "1" ∷ [])) }
{
    out.extend_from_slice(b"problem 1\n")
}

fn put_nodes(out: &mut Vec<u8>, nodes: u32) -> Result<(), AllocError>
    ensures { OnOk result (out.new.items ≡ out.old.items ++ nodes_line nodes) }
{
    out.extend_from_slice(b"nodes")?;
    put_count(out, nodes)?;
    out.push(b'\n')?;
    Ok(())
}

fn put_item(out: &mut Vec<u8>, item: &Item) -> Result<(), AllocError>
    ensures { OnOk result (out.new.items ≡ out.old.items ++ item_line item.now) }
{
    out.extend_from_slice(b"item")?;
    put_count(out, item.from.0)?;
    put_count(out, item.to.0)?;
    put_whole(out, item.least)?;
    put_whole(out, item.greatest)?;
    put_count(out, item.weight)?;
    out.push(b'\n')?;
    Ok(())
}

fn put_items(out: &mut Vec<u8>, items: &[Item]) -> Result<(), AllocError>
    ensures { OnOk result (out.new.items ≡ out.old.items ++ flat_map item_line items.now) }
{
    for item in items {
        put_item(out, item)?;
    }
    Ok(())
}

fn put_start(out: &mut Vec<u8>, start: &Start) -> Result<(), AllocError>
    ensures { OnOk result (out.new.items ≡ out.old.items ++ start_line start.now) }
{
    out.extend_from_slice(b"start")?;
    put_count(out, start.node.0)?;
    put_whole(out, start.offset)?;
    out.push(b'\n')?;
    Ok(())
}

fn put_starts(out: &mut Vec<u8>, starts: &[Start]) -> Result<(), AllocError>
    ensures { OnOk result (out.new.items ≡ out.old.items ++ flat_map start_line starts.now) }
{
    for start in starts {
        put_start(out, start)?;
    }
    Ok(())
}

fn put_end(out: &mut Vec<u8>, end: &End) -> Result<(), AllocError>
    ensures { OnOk result (out.new.items ≡ out.old.items ++ end_line end.now) }
{
    out.extend_from_slice(b"end")?;
    put_count(out, end.node.0)?;
    put_whole(out, end.require)?;
    out.push(b'\n')?;
    Ok(())
}

fn put_ends(out: &mut Vec<u8>, ends: &[End]) -> Result<(), AllocError>
    ensures { OnOk result (out.new.items ≡ out.old.items ++ flat_map end_line ends.now) }
{
    for end in ends {
        put_end(out, end)?;
    }
    Ok(())
}
