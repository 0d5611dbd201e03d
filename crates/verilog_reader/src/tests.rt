use crate::{VerilogFault, read_verilog};
use bud_syntax::{Dir, Module, Piece, Pieces, Range};
use std::alloc::Global;
use std::process::Abort;
use std::test::Fail;

/// The text reads as so many modules, the last with so many ports, nets, assignments and instances.
fn reads(rt: &impl Abort, alloc: Global, text: &[u8], modules: usize, sizes: [usize; 4]) {
    assert!(rt; text.len() < 2000);
    match read_verilog(alloc, text) {
        Ok(found) => {
            assert_eq!(rt; found.len(), modules);
            if let Some(last) = found.as_slice().last() {
                assert_eq!(rt; last.ports.len(), sizes[0]);
                assert_eq!(rt; last.nets.len(), sizes[1]);
                assert_eq!(rt; last.assigns.len(), sizes[2]);
                assert_eq!(rt; last.instances.len(), sizes[3]);
            }
        }
        Err(_) => assert!(rt; false),
    }
}

/// The text is refused for its form.
fn malformed(rt: &impl Abort, alloc: Global, text: &[u8]) {
    assert!(rt; text.len() < 2000);
    match read_verilog(alloc, text) {
        Err(VerilogFault::Syntax(_)) => {}
        _ => assert!(rt; false),
    }
}

/// The text is refused for this word.
fn unsupported(rt: &impl Abort, alloc: Global, text: &[u8], word: &[u8], at: usize) {
    assert!(rt; text.len() < 2000);
    match read_verilog(alloc, text) {
        Err(VerilogFault::Unsupported(found, place)) => {
            assert_eq!(rt; found.as_slice(), word);
            assert_eq!(rt; place, at);
        }
        _ => assert!(rt; false),
    }
}

/// The text is refused for this port.
fn port(rt: &impl Abort, alloc: Global, text: &[u8], name: &[u8], at: usize) {
    assert!(rt; text.len() < 2000);
    match read_verilog(alloc, text) {
        Err(VerilogFault::Port(found, place)) => {
            assert_eq!(rt; found.as_slice(), name);
            assert_eq!(rt; place, at);
        }
        _ => assert!(rt; false),
    }
}

/// The text is refused for the number at this offset.
fn number(rt: &impl Abort, alloc: Global, text: &[u8], at: usize) {
    assert!(rt; text.len() < 2000);
    match read_verilog(alloc, text) {
        Err(VerilogFault::Number(place)) => assert_eq!(rt; place, at),
        _ => assert!(rt; false),
    }
}

/// The pieces are this bit alone, or this net alone where there is no bit.
fn is_piece(rt: &impl Abort, pieces: &Pieces, name: &[u8], bit: Option<u32>) {
    assert_eq!(rt; pieces.len(), 1);
    for piece in pieces.as_slice() {
        match piece {
            Piece::Net(found) => {
                assert_eq!(rt; found.as_slice(), name);
                assert_eq!(rt; bit, None);
            }
            Piece::Bit(found, n) => {
                assert_eq!(rt; found.as_slice(), name);
                assert_eq!(rt; bit, Some(*n));
            }
            _ => assert!(rt; false),
        }
    }
}

/// The module has a vector port x, a net w, and w driven by a bit of x.
fn is_plain(rt: &impl Abort, module: &Module) {
    assert_eq!(rt; module.name.as_slice(), b"m".as_slice());
    assert!(rt; !module.leaf);
    assert_eq!(rt; module.ports.len(), 1);
    for port in module.ports.as_slice() {
        assert_eq!(rt; port.name.as_slice(), b"x".as_slice());
        assert_eq!(rt; port.dir, Dir::Input);
        assert_eq!(rt; port.range, Some(Range { left: 1, right: 0 }));
    }
    assert_eq!(rt; module.nets.len(), 1);
    for net in module.nets.as_slice() {
        assert_eq!(rt; net.name.as_slice(), b"w".as_slice());
        assert!(rt; !net.constant);
    }
    assert_eq!(rt; module.assigns.len(), 1);
    for assign in module.assigns.as_slice() {
        is_piece(rt, &assign.left, b"w", None);
        is_piece(rt, &assign.right, b"x", Some(0));
    }
}

#[test]
fn one_plain_module(rt: HostRuntime) {
    match read_verilog(
        rt.alloc(),
        b"module m (x); input [1:0] x; wire w; assign w = x[0]; endmodule",
    ) {
        Ok(modules) => {
            assert_eq!(rt; modules.len(), 1);
            for module in modules.as_slice() {
                is_plain(&rt, module);
            }
        }
        Err(_) => assert!(rt; false),
    }
}

/// The text reads as one module of this name.
fn named(rt: &impl Abort, alloc: Global, text: &[u8], name: &[u8]) {
    assert!(rt; text.len() < 2000);
    match read_verilog(alloc, text) {
        Ok(modules) => {
            assert_eq!(rt; modules.len(), 1);
            for module in modules.as_slice() {
                assert_eq!(rt; module.name.as_slice(), name);
            }
        }
        Err(_) => assert!(rt; false),
    }
}

#[test]
fn escaped_names(rt: HostRuntime) {
    for text in [
        b"module cpu3; endmodule".as_slice(),
        b"module \\cpu3 ; endmodule".as_slice(),
    ] {
        named(&rt, rt.alloc(), text, b"cpu3");
    }
}

#[test]
fn netlists(rt: HostRuntime) {
    for (text, modules, sizes) in [
        (b"".as_slice(), 0, [0, 0, 0, 0]),
        (b"module m; endmodule".as_slice(), 1, [0, 0, 0, 0]),
        (
            b"`celldefine\nmodule m (q); output reg q; always @(q) q = 1; function f; input z; endfunction endmodule".as_slice(),
            1,
            [1, 0, 0, 0],
        ),
        (
            b"`timescale 1ns/1ps\nmodule m (input [3:0] a, b, output wire c); wire [3:0] a; supply0 c, d; k u (), v (,), w (.A(), .B({c, 4'b01x?}));endmodule".as_slice(),
            1,
            [3, 2, 0, 3],
        ),
        (
            b"primitive p; always # endprimitive module m (); tri \\a[0] ; assign \\a[0] = 1'b 0; endmodule".as_slice(),
            1,
            [0, 1, 1, 0],
        ),
        (
            b"`celldefine\nmodule DFF (CK, D, Q); input CK, D; output Q; endmodule\nmodule BUF (A, Z); input A; output Z; endmodule\n`endcelldefine\nmodule core (ck, i, o);\n  input ck, i; output o; wire q;\n  BUF b1 (.A(i), .Z(d));\n  DFF r1 (.CK(ck), .D(d), .Q(q));\n  BUF b2 (.A(q), .Z(o));\nendmodule\nmodule top (clk, in, out);\n  input clk, in; output out; wire m;\n  BUF g (.A(in), .Z(m));\n  core u (.ck(clk), .i(m), .o(out));\nendmodule\n".as_slice(),
            4,
            [3, 1, 0, 2],
        ),
        (
            b"`celldefine\nmodule DFF (CK, D, Q); input CK, D; output Q; endmodule\nmodule AND2 (A, B, Z); input A, B; output Z; endmodule\n`endcelldefine\nmodule m1 (k, a, y); input k, a; output y;\n  DFF r (.CK(k), .D(a), .Q(q)); AND2 g (.A(a), .B(q), .Z(y));\nendmodule\nmodule m2 (k, a, y); input k, a; output y;\n  DFF s (.CK(k), .D(a), .Q(y));\nendmodule\nmodule top (p1, p2, in, out); input p1, p2, in; output out;\n  m1 x1 (.k(p2), .a(in), .y(w)); m2 x2 (.k(p1), .a(w), .y(out));\nendmodule\n".as_slice(),
            5,
            [4, 0, 0, 2],
        ),
    ] {
        reads(&rt, rt.alloc(), text, modules, sizes);
    }
}

#[test]
fn refusals(rt: HostRuntime) {
    let alloc = rt.alloc();
    for text in [
        b"/*".as_slice(),
        b"module m (x); input x; wire [1:0] x; endmodule".as_slice(),
        b"module m (x); input y; endmodule".as_slice(),
        b"module m; assign 1'b0 = a; endmodule".as_slice(),
        b"module m; assign {a = b; endmodule".as_slice(),
        b"module m; `timescale 1ns/1ps\nendmodule".as_slice(),
        b"module m (x, input y); endmodule".as_slice(),
        b"module m;".as_slice(),
    ] {
        malformed(&rt, alloc, text);
    }
    unsupported(&rt, alloc, b"module m; always endmodule", b"always", 10);
    unsupported(&rt, alloc, b"`define x\n", b"`define", 0);
    for (text, name, at) in [
        (b"module m (x); endmodule".as_slice(), b"x".as_slice(), 10),
        (
            b"module m (a, a); endmodule".as_slice(),
            b"a".as_slice(),
            10,
        ),
        (
            b"module m (a, a); input a; endmodule".as_slice(),
            b"a".as_slice(),
            13,
        ),
        (
            b"module m (a); input a; output a; endmodule".as_slice(),
            b"a".as_slice(),
            30,
        ),
        (
            b"module m (\\a[3] ); endmodule".as_slice(),
            b"a[3]".as_slice(),
            10,
        ),
    ] {
        port(&rt, alloc, text, name, at);
    }
    for (text, at) in [
        (
            b"module m (x); input [1000001:0] x; endmodule".as_slice(),
            21,
        ),
        (b"module m; assign a = 0'b0; endmodule".as_slice(), 21),
        (b"module m; assign a = 65537'h0; endmodule".as_slice(), 21),
        (
            b"module m; assign a[2000000] = b; endmodule module n (x); endmodule".as_slice(),
            19,
        ),
    ] {
        number(&rt, alloc, text, at);
    }
}

/// A text with an expression in so many braces, of which the last so many aren't closed.
fn nested(alloc: Global, depth: u32, open: u32) -> Result<Vec<u8>, Fail> {
    let mut text = Vec::new(alloc);
    text.extend_from_slice(b"module m; assign ")?;
    for _ in 0..depth {
        text.push(b'{')?;
    }
    text.push(b'a')?;
    for _ in open..depth {
        text.push(b'}')?;
    }
    text.extend_from_slice(b" = b; endmodule")?;
    Ok(text)
}

#[test]
fn nested_braces(rt: HostRuntime) -> Result<(), Fail> {
    let alloc = rt.alloc();
    let text = nested(alloc, 100000, 0)?;
    assert!(rt; text.len() < 300000);
    match read_verilog(alloc, text.as_slice()) {
        Ok(modules) => {
            for module in modules.as_slice() {
                for assign in module.assigns.as_slice() {
                    is_piece(&rt, &assign.left, b"a", None);
                }
            }
        }
        Err(_) => assert!(rt; false),
    }
    let text = nested(alloc, 100000, 1)?;
    assert!(rt; text.len() < 300000);
    match read_verilog(alloc, text.as_slice()) {
        Err(VerilogFault::Syntax(_)) => {}
        _ => assert!(rt; false),
    }
    Ok(())
}
