//! The netlist of a made design.
ghost use Rattle.std.specs.Prelude.{◌≡◌, ◌<◌, ◌≤◌, ◌++◌, length, All, IfOk, OnOk};
ghost use Rattle.bud_gen.specs.Gates.{IsSized};
ghost use Rattle.bud_gen.specs.Netlists.{cells, gate_line, gate_lines, header, lines_of, module_text, modules_text, output_line, output_lines, register_line, top, verilog_text};

use crate::gates::{Block, Gate};
use crate::signals::{Signal, back, put_numbered, put_signal};
use bud_base::Text;
use std::alloc::{AllocError, Global};

/// The netlist of a design of these blocks.
#[tactic(auto, unfolding(crate::specs::Netlists::verilog_text))]
pub fn verilog_text(alloc: Global, blocks: &[Block]) -> Result<Text, AllocError>
    requires { All IsSized blocks.now }
    ensures { IfOk result (λ text. text ≡ verilog_text blocks.now) }
{
    let mut out = Vec::new(alloc);
    put_cells(&mut out)?;
    put_modules(&mut out, blocks)?;
    put_top(&mut out)?;
    Ok(Text::from_vec(out))
}

/// Adds the two cells.
fn put_cells(out: &mut Vec<u8>) -> Result<(), AllocError>
    ensures { OnOk result (out.new.items ≡ out.old.items ++ cells) }
{
    out.extend_from_slice(
        b"`celldefine\nmodule GATE (A, B, Z); input A, B; output Z; endmodule\n",
    )?;
    out.extend_from_slice(
        b"module DFF (CK, D, Q); input CK, D; output Q; endmodule\n`endcelldefine\n",
    )
}

/// Adds a module for each block.
fn put_modules(out: &mut Vec<u8>, blocks: &[Block]) -> Result<(), AllocError>
    requires { All IsSized blocks.now }
    ensures { OnOk result (out.new.items ≡ out.old.items ++ modules_text blocks.now) }
{
    for block in blocks {
        put_module(out, block)?;
    }
    Ok(())
}

fn put_module(out: &mut Vec<u8>, block: &Block) -> Result<(), AllocError>
    requires { IsSized block.now }
    ensures { OnOk result (out.new.items ≡ out.old.items ++ module_text block.now) }
{
    put_header(out, block.number)?;
    put_gates(out, block.gates.as_slice())?;
    put_outputs(out, block.signals.as_slice())?;
    out.extend_from_slice(b"endmodule\n")
}

/// Adds the head of a block's module, with its ports.
fn put_header(out: &mut Vec<u8>, k: u32) -> Result<(), AllocError>
    ensures { OnOk result (out.new.items ≡ out.old.items ++ header k) }
{
    put_numbered(out, b"module m", k)?;
    out.extend_from_slice(
        b" (ck, a0, a1, a2, a3, y0, y1, y2, y3);\ninput ck, a0, a1, a2, a3;\noutput y0, y1, y2, y3;\n",
    )
}

/// Adds the gates of a block.
fn put_gates(out: &mut Vec<u8>, gates: &[Gate]) -> Result<(), AllocError>
    ensures { OnOk result (out.new.items ≡ out.old.items ++ gate_lines gates.now) }
{
    for gate in gates {
        put_gate(out, gate)?;
    }
    Ok(())
}

/// Adds a gate, with its register behind it where it has one.
fn put_gate(out: &mut Vec<u8>, gate: &Gate) -> Result<(), AllocError>
    ensures { OnOk result (out.new.items ≡ out.old.items ++ lines_of gate.now) }
{
    put_gate_line(out, gate)?;
    if gate.is_registered {
        put_register_line(out, gate.number)?;
    }
    Ok(())
}

fn put_gate_line(out: &mut Vec<u8>, gate: &Gate) -> Result<(), AllocError>
    ensures { OnOk result (out.new.items ≡ out.old.items ++ gate_line gate.now) }
{
    put_numbered(out, b"GATE g", gate.number)?;
    out.extend_from_slice(b" (.A(")?;
    put_signal(out, gate.a.signal)?;
    out.extend_from_slice(b"), .B(")?;
    put_signal(out, gate.b.signal)?;
    put_numbered(out, b"), .Z(n", gate.number)?;
    out.extend_from_slice(b"));\n")
}

fn put_register_line(out: &mut Vec<u8>, g: u32) -> Result<(), AllocError>
    ensures { OnOk result (out.new.items ≡ out.old.items ++ register_line g) }
{
    put_numbered(out, b"DFF r", g)?;
    put_numbered(out, b" (.CK(ck), .D(n", g)?;
    put_numbered(out, b"), .Q(q", g)?;
    out.extend_from_slice(b"));\n")
}

/// Adds what drives the four outputs of a block.
fn put_outputs(out: &mut Vec<u8>, signals: &[Signal]) -> Result<(), AllocError>
    requires { 4 ≤ length signals.now }
    ensures { OnOk result (out.new.items ≡ out.old.items ++ output_lines signals.now) }
{
    put_output(out, signals, 0)?;
    put_output(out, signals, 1)?;
    put_output(out, signals, 2)?;
    put_output(out, signals, 3)
}

fn put_output(out: &mut Vec<u8>, signals: &[Signal], j: u32) -> Result<(), AllocError>
    requires { j < length signals.now }
    ensures { OnOk result (out.new.items ≡ out.old.items ++ output_line signals.now j) }
{
    put_numbered(out, b"assign y", j)?;
    out.extend_from_slice(b" = ")?;
    put_signal(out, back(signals, j as usize))?;
    out.extend_from_slice(b";\n")
}

/// Adds the top, which links the blocks one behind another.
fn put_top(out: &mut Vec<u8>) -> Result<(), AllocError>
    ensures { OnOk result (out.new.items ≡ out.old.items ++ top) }
{
    out.extend_from_slice(
        b"module top (clk, a0, a1, a2, a3, y0, y1, y2, y3);\ninput clk, a0, a1, a2, a3;\noutput y0, y1, y2, y3;\n",
    )?;
    out.extend_from_slice(
        b"m0 b0 (.ck(clk), .a0(a0), .a1(a1), .a2(a2), .a3(a3), .y0(w0_0), .y1(w0_1), .y2(w0_2), .y3(w0_3));\n",
    )?;
    out.extend_from_slice(
        b"m1 b1 (.ck(clk), .a0(w0_0), .a1(w0_1), .a2(w0_2), .a3(w0_3), .y0(w1_0), .y1(w1_1), .y2(w1_2), .y3(w1_3));\n",
    )?;
    out.extend_from_slice(
        b"m2 b2 (.ck(clk), .a0(w1_0), .a1(w1_1), .a2(w1_2), .a3(w1_3), .y0(w2_0), .y1(w2_1), .y2(w2_2), .y3(w2_3));\n",
    )?;
    out.extend_from_slice(
        b"m3 b3 (.ck(clk), .a0(w2_0), .a1(w2_1), .a2(w2_2), .a3(w2_3), .y0(y0), .y1(y1), .y2(y2), .y3(y3));\n",
    )?;
    out.extend_from_slice(b"endmodule\n")
}
