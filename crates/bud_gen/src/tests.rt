use crate::make_design;
use std::test::Fail;

/// The one gate stands in the last block, and the other blocks pass their inputs on.
#[test]
fn one_gate(rt: HostRuntime) -> Result<(), Fail> {
    let made = make_design(rt.alloc(), 1, 0)?;
    assert_eq!(rt; made.registers, 0);
    assert_eq!(&rt; made.verilog.as_slice(), VERILOG.as_slice());
    assert_eq!(&rt; made.sdf.as_slice(), SDF.as_slice());
    assert_eq!(&rt; made.sdc.as_slice(), SDC.as_slice());
    assert_eq!(&rt; made.policy.as_slice(), POLICY.as_slice());
    Ok(())
}

const VERILOG: [u8; 1374] =
    *b"`celldefine\nmodule GATE (A, B, Z); input A, B; output Z; endmodule\nmodule DFF (CK, D, Q); input CK, D; output Q; endmodule\n`endcelldefine\nmodule m0 (ck, a0, a1, a2, a3, y0, y1, y2, y3);\ninput ck, a0, a1, a2, a3;\noutput y0, y1, y2, y3;\nassign y0 = a3;\nassign y1 = a2;\nassign y2 = a1;\nassign y3 = a0;\nendmodule\nmodule m1 (ck, a0, a1, a2, a3, y0, y1, y2, y3);\ninput ck, a0, a1, a2, a3;\noutput y0, y1, y2, y3;\nassign y0 = a3;\nassign y1 = a2;\nassign y2 = a1;\nassign y3 = a0;\nendmodule\nmodule m2 (ck, a0, a1, a2, a3, y0, y1, y2, y3);\ninput ck, a0, a1, a2, a3;\noutput y0, y1, y2, y3;\nassign y0 = a3;\nassign y1 = a2;\nassign y2 = a1;\nassign y3 = a0;\nendmodule\nmodule m3 (ck, a0, a1, a2, a3, y0, y1, y2, y3);\ninput ck, a0, a1, a2, a3;\noutput y0, y1, y2, y3;\nGATE g0 (.A(a3), .B(a3), .Z(n0));\nassign y0 = n0;\nassign y1 = a3;\nassign y2 = a2;\nassign y3 = a1;\nendmodule\nmodule top (clk, a0, a1, a2, a3, y0, y1, y2, y3);\ninput clk, a0, a1, a2, a3;\noutput y0, y1, y2, y3;\nm0 b0 (.ck(clk), .a0(a0), .a1(a1), .a2(a2), .a3(a3), .y0(w0_0), .y1(w0_1), .y2(w0_2), .y3(w0_3));\nm1 b1 (.ck(clk), .a0(w0_0), .a1(w0_1), .a2(w0_2), .a3(w0_3), .y0(w1_0), .y1(w1_1), .y2(w1_2), .y3(w1_3));\nm2 b2 (.ck(clk), .a0(w1_0), .a1(w1_1), .a2(w1_2), .a3(w1_3), .y0(w2_0), .y1(w2_1), .y2(w2_2), .y3(w2_3));\nm3 b3 (.ck(clk), .a0(w2_0), .a1(w2_1), .a2(w2_2), .a3(w2_3), .y0(y0), .y1(y1), .y2(y2), .y3(y3));\nendmodule\n";

const SDF: [u8; 138] =
    *b"(DELAYFILE (DIVIDER /) (TIMESCALE 1ps)\n(CELL (CELLTYPE \"GATE\") (INSTANCE b3/g0) (DELAY (ABSOLUTE (IOPATH A Z (88)) (IOPATH B Z (57)))))\n)\n";

const SDC: [u8; 195] =
    *b"set_units -time ps\ncurrent_design top\ncreate_clock -name C -period 1100 [get_ports clk]\nset_input_delay 0 -clock C [get_ports {a0 a1 a2 a3}]\nset_output_delay 0 -clock C [get_ports {y0 y1 y2 y3}]\n";

const POLICY: [u8; 123] =
    *b"policy 1\nblock b0\nblock b1\nblock b2\nblock b3\narc b3/g0/A b3/g0/Z extra 500 weight 8\narc b3/g0/B b3/g0/Z extra 500 weight 8\n";
