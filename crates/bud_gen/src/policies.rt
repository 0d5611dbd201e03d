//! The policy of a made design.
ghost use Rattle.std.specs.Prelude.{◌≡◌, ◌++◌, IfOk, OnOk};
ghost use Rattle.bud_gen.specs.Policies.{arc_line, arc_end, arc_lines, arc_start, block_lines, lines_of, policy_text};

use crate::gates::{Block, Gate};
use crate::signals::put_numbered;
use bud_base::Text;
use std::alloc::{AllocError, Global};

/// The policy of a design of these blocks.
#[tactic(auto, unfolding(crate::specs::Policies::policy_text))]
pub fn policy_text(alloc: Global, blocks: &[Block]) -> Result<Text, AllocError>
    ensures { IfOk result (λ text. text ≡ policy_text blocks.now) }
{
    let mut out = Vec::new(alloc);
    out.extend_from_slice(b"policy 1\nblock b0\nblock b1\nblock b2\nblock b3\n")?;
    put_blocks(&mut out, blocks)?;
    Ok(Text::from_vec(out))
}

/// Adds the lines of the gates of all blocks.
fn put_blocks(out: &mut Vec<u8>, blocks: &[Block]) -> Result<(), AllocError>
    ensures { OnOk result (out.new.items ≡ out.old.items ++ block_lines blocks.now) }
{
    for block in blocks {
        put_gates(out, block.number, block.gates.as_slice())?;
    }
    Ok(())
}

/// Adds the lines of a block's gates.
fn put_gates(out: &mut Vec<u8>, k: u32, gates: &[Gate]) -> Result<(), AllocError>
    ensures { OnOk result (out.new.items ≡ out.old.items ++ arc_lines k gates.now) }
{
    for gate in gates {
        put_gate(out, k, gate)?;
    }
    Ok(())
}

/// Adds the lines of both arcs of a gate.
fn put_gate(out: &mut Vec<u8>, k: u32, gate: &Gate) -> Result<(), AllocError>
    ensures { OnOk result (out.new.items ≡ out.old.items ++ lines_of k gate.now) }
{
    put_arc(out, k, gate.number, b"A", gate.a.weight)?;
    put_arc(out, k, gate.number, b"B", gate.b.weight)
}

/// Adds the line of the arc to a gate's output from its input of this name.
fn put_arc(out: &mut Vec<u8>, k: u32, g: u32, pin: &[u8], weight: u32) -> Result<(), AllocError>
    ensures { OnOk result (out.new.items ≡ out.old.items ++ arc_line k g pin.now weight) }
{
    put_arc_start(out, k, g, pin)?;
    put_arc_end(out, k, g, weight)
}

#[tactic(auto, unfolding(crate::specs::Policies::arc_start))]
fn put_arc_start(out: &mut Vec<u8>, k: u32, g: u32, pin: &[u8]) -> Result<(), AllocError>
    ensures { OnOk result (out.new.items ≡ out.old.items ++ arc_start k g pin.now) }
{
    put_numbered(out, b"arc b", k)?;
    put_numbered(out, b"/g", g)?;
    out.push(b'/')?;
    out.extend_from_slice(pin)
}

#[tactic(auto, unfolding(crate::specs::Policies::arc_end))]
fn put_arc_end(out: &mut Vec<u8>, k: u32, g: u32, weight: u32) -> Result<(), AllocError>
    ensures { OnOk result (out.new.items ≡ out.old.items ++ arc_end k g weight) }
{
    put_numbered(out, b" b", k)?;
    put_numbered(out, b"/g", g)?;
    put_numbered(out, b"/Z extra 500 weight ", weight)?;
    out.push(b'\n')?;
    Ok(())
}
