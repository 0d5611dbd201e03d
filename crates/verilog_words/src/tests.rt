use crate::{Word, first_left_out};
use std::alloc::Global;
use std::process::Abort;
use verilog_lex::tokens;

/// The word that is left out first begins at the offset and has as many bytes; where it has none, there is no such word.
fn first(rt: &impl Abort, alloc: Global, text: &[u8], at: usize, len: usize) {
    assert!(rt; text.len() < 100);
    match tokens(alloc, text) {
        Ok(found) => match first_left_out(text, found.as_slice()) {
            Some(word) => assert_eq!(rt; word, Word { at, len }),
            None => assert_eq!(rt; len, 0),
        },
        Err(fault) => assert_eq!(rt; Some(fault), None),
    }
}

#[test]
fn words(rt: HostRuntime) {
    for (text, at, len) in [
        (b"module m (a); always endmodule".as_slice(), 14, 6),
        (b"wire w; /* always */ reg r;".as_slice(), 21, 3),
        (b"\\always \"initial\" // task\n".as_slice(), 0, 0),
        (b"endfunction begin endspecify".as_slice(), 0, 0),
        (b"and u (a, b); or v (c, d);".as_slice(), 0, 3),
        (b"m #(4) u (.A(b));".as_slice(), 2, 1),
    ] {
        first(&rt, rt.alloc(), text, at, len);
    }
}

#[test]
fn regions(rt: HostRuntime) {
    for (text, at, len) in [
        (
            b"`celldefine\nmodule m (a); always # endmodule\n`endcelldefine\n".as_slice(),
            0,
            0,
        ),
        (b"`celldefine module m; endmodule always".as_slice(), 32, 6),
        (
            b"`celldefine module m; `endcelldefine endmodule module n; tran endmodule".as_slice(),
            0,
            0,
        ),
        (
            b"`celldefine\n`endcelldefine\nmodule m; initial endmodule".as_slice(),
            37,
            7,
        ),
        (b"`celldefine module m; #".as_slice(), 0, 0),
        (b"module m; `celldefine # endmodule".as_slice(), 22, 1),
        (b"primitive p; # endmodule endprimitive #".as_slice(), 38, 1),
        (b"primitive #".as_slice(), 0, 0),
    ] {
        first(&rt, rt.alloc(), text, at, len);
    }
}

#[test]
fn directives(rt: HostRuntime) {
    for (text, at, len) in [
        (b"`define X".as_slice(), 0, 7),
        (b"a `ifdef_ b".as_slice(), 2, 7),
        (b"` define".as_slice(), 0, 0),
        (b"`\\define ".as_slice(), 0, 0),
        (b"`always".as_slice(), 1, 6),
        (b"`resetall `ifdef\n`undef".as_slice(), 17, 6),
        (b"`timescale 1ns # 1ps\n#".as_slice(), 21, 1),
        (
            b"`default_nettype none /* \n */ # `unconnected_drive #\n".as_slice(),
            30,
            1,
        ),
        (b"`nounconnected_drive /* */ #".as_slice(), 0, 0),
    ] {
        first(&rt, rt.alloc(), text, at, len);
    }
}

#[test]
fn brackets(rt: HostRuntime) {
    for (text, at, len) in [
        (b"a b [".as_slice(), 4, 1),
        (b"a, b [".as_slice(), 0, 0),
        (b"wire a [3:0]".as_slice(), 0, 0),
        (b"[ c \\a \\b [".as_slice(), 10, 1),
        (b"4'hff a [".as_slice(), 0, 0),
        (b"4'hff a b [".as_slice(), 10, 1),
        (b"4 ' h ff a [".as_slice(), 0, 0),
        (b"4'b?x a [".as_slice(), 0, 0),
        (b"4'x a [".as_slice(), 6, 1),
        (b"`endcelldefine a [".as_slice(), 0, 0),
    ] {
        first(&rt, rt.alloc(), text, at, len);
    }
}

#[test]
fn headers(rt: HostRuntime) {
    for (text, at, len) in [
        (b"module m (.a(b));".as_slice(), 10, 1),
        (b"module \\m (a, .b(c));".as_slice(), 14, 1),
        (b"module m (a), .b(c);".as_slice(), 0, 0),
        (b"module m; n u (.a(b)); endmodule".as_slice(), 0, 0),
        (b"module m (a\n`timescale 1ns\n.b".as_slice(), 27, 1),
    ] {
        first(&rt, rt.alloc(), text, at, len);
    }
}
