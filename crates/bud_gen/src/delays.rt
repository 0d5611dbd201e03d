//! The delay file of a made design.
ghost use Rattle.std.specs.Prelude.{◌≡◌, ◌++◌, IfOk, OnOk};
ghost use Rattle.bud_gen.specs.DelayFiles.{block_cells, cells_of, gate_cell, gate_cells, register_cell, sdf_text};

use crate::gates::{Block, Gate};
use crate::signals::put_numbered;
use bud_base::Text;
use std::alloc::{AllocError, Global};

/// The delay file of a design of these blocks.
#[tactic(auto, unfolding(crate::specs::DelayFiles::sdf_text))]
pub fn sdf_text(alloc: Global, blocks: &[Block]) -> Result<Text, AllocError>
    ensures { IfOk result (λ text. text ≡ sdf_text blocks.now) }
{
    let mut out = Vec::new(alloc);
    out.extend_from_slice(b"(DELAYFILE (DIVIDER /) (TIMESCALE 1ps)\n")?;
    put_blocks(&mut out, blocks)?;
    out.extend_from_slice(b")\n")?;
    Ok(Text::from_vec(out))
}

/// Adds the cells of all blocks.
fn put_blocks(out: &mut Vec<u8>, blocks: &[Block]) -> Result<(), AllocError>
    ensures { OnOk result (out.new.items ≡ out.old.items ++ block_cells blocks.now) }
{
    for block in blocks {
        put_gates(out, block.number, block.gates.as_slice())?;
    }
    Ok(())
}

/// Adds the cells of a block's gates.
fn put_gates(out: &mut Vec<u8>, k: u32, gates: &[Gate]) -> Result<(), AllocError>
    ensures { OnOk result (out.new.items ≡ out.old.items ++ gate_cells k gates.now) }
{
    for gate in gates {
        put_gate(out, k, gate)?;
    }
    Ok(())
}

/// Adds the cell of a gate, with its register's behind it where it has one.
fn put_gate(out: &mut Vec<u8>, k: u32, gate: &Gate) -> Result<(), AllocError>
    ensures { OnOk result (out.new.items ≡ out.old.items ++ cells_of k gate.now) }
{
    put_gate_cell(out, k, gate)?;
    if gate.is_registered {
        put_register_cell(out, k, gate.number)?;
    }
    Ok(())
}

fn put_gate_cell(out: &mut Vec<u8>, k: u32, gate: &Gate) -> Result<(), AllocError>
    ensures { OnOk result (out.new.items ≡ out.old.items ++ gate_cell k gate.now) }
{
    put_numbered(out, b"(CELL (CELLTYPE \"GATE\") (INSTANCE b", k)?;
    put_numbered(out, b"/g", gate.number)?;
    put_numbered(out, b") (DELAY (ABSOLUTE (IOPATH A Z (", gate.a.delay)?;
    put_numbered(out, b")) (IOPATH B Z (", gate.b.delay)?;
    out.extend_from_slice(b")))))\n")
}

fn put_register_cell(out: &mut Vec<u8>, k: u32, g: u32) -> Result<(), AllocError>
    ensures { OnOk result (out.new.items ≡ out.old.items ++ register_cell k g) }
{
    put_numbered(out, b"(CELL (CELLTYPE \"DFF\") (INSTANCE b", k)?;
    put_numbered(out, b"/r", g)?;
    out.extend_from_slice(
        b") (DELAY (ABSOLUTE (IOPATH (posedge CK) Q (50)))) (TIMINGCHECK (SETUP D (posedge CK) (30))))\n",
    )
}
