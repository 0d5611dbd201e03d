use crate::{Kind, LexFault, Token, tokens};
use std::alloc::Global;
use std::process::Abort;

fn name(at: usize, len: usize) -> Token {
    Token {
        kind: Kind::Name,
        at,
        len,
    }
}

fn escaped(at: usize, len: usize) -> Token {
    Token {
        kind: Kind::Escaped,
        at,
        len,
    }
}

fn number(at: usize, len: usize) -> Token {
    Token {
        kind: Kind::Number,
        at,
        len,
    }
}

fn quoted(at: usize, len: usize) -> Token {
    Token {
        kind: Kind::Quoted,
        at,
        len,
    }
}

fn sign(at: usize) -> Token {
    Token {
        kind: Kind::Sign,
        at,
        len: 1,
    }
}

/// The text has these tokens.
fn has(rt: &impl Abort, alloc: Global, text: &[u8], expected: &[Token]) {
    assert!(rt; text.len() < 100);
    match tokens(alloc, text) {
        Ok(found) => assert_eq!(rt; found.as_slice(), expected),
        Err(fault) => assert_eq!(rt; Some(fault), None),
    }
}

#[test]
fn names_and_numbers(rt: HostRuntime) {
    let alloc = rt.alloc();
    has(&rt, alloc, b"", &[]);
    has(&rt, alloc, b" \t\r\n\x0c", &[]);
    has(
        &rt,
        alloc,
        b"module m (_a);",
        &[
            name(0, 6),
            name(7, 1),
            sign(9),
            name(10, 2),
            sign(12),
            sign(13),
        ],
    );
    has(&rt, alloc, b"a$1_Z", &[name(0, 5)]);
    has(&rt, alloc, b"$display", &[sign(0), name(1, 7)]);
    has(&rt, alloc, b"`timescale", &[sign(0), name(1, 9)]);
    has(&rt, alloc, b"16'hFF", &[number(0, 2), sign(2), name(3, 3)]);
    has(&rt, alloc, b"12ab", &[number(0, 2), name(2, 2)]);
    has(&rt, alloc, b"[007]", &[sign(0), number(1, 3), sign(4)]);
}

#[test]
fn escaped_names(rt: HostRuntime) {
    let alloc = rt.alloc();
    has(&rt, alloc, b"\\a[3] x", &[escaped(0, 5), name(6, 1)]);
    has(&rt, alloc, b"\\+\n", &[escaped(0, 2)]);
    has(&rt, alloc, b"\\a\\b//c\t", &[escaped(0, 7)]);
    has(&rt, alloc, b"\\ x", &[sign(0), name(2, 1)]);
    has(&rt, alloc, b"\\x", &[sign(0), name(1, 1)]);
    has(
        &rt,
        alloc,
        b"\\a\\\\b",
        &[sign(0), name(1, 1), sign(2), sign(3), name(4, 1)],
    );
}

#[test]
fn skipped(rt: HostRuntime) {
    let alloc = rt.alloc();
    has(&rt, alloc, b"a//b\nc", &[name(0, 1), name(5, 1)]);
    has(&rt, alloc, b"//\xff", &[]);
    has(
        &rt,
        alloc,
        b"/**/a/*\xff\n//*/b",
        &[name(4, 1), name(13, 1)],
    );
    has(
        &rt,
        alloc,
        b"a/b*/",
        &[name(0, 1), sign(1), name(2, 1), sign(3), sign(4)],
    );
    has(
        &rt,
        alloc,
        b"(*)*)",
        &[sign(0), sign(1), sign(2), sign(3), sign(4)],
    );
    has(&rt, alloc, b"(**)a(*\n)*)b", &[name(4, 1), name(11, 1)]);
}

#[test]
fn strings(rt: HostRuntime) {
    let alloc = rt.alloc();
    has(&rt, alloc, b"\"a\\\"b", &[quoted(0, 4), name(4, 1)]);
    has(&rt, alloc, b"\"\"\"\xff/*\"", &[quoted(0, 2), quoted(2, 5)]);
}

#[test]
fn refusals(rt: HostRuntime) {
    for (text, at) in [
        (b"/* a".as_slice(), 0),
        (b"a /*/ b".as_slice(), 2),
        (b"x (* y".as_slice(), 2),
        (b"(* \xff *)".as_slice(), 3),
        (b"(* \xff".as_slice(), 0),
        (b"\"ab\n\"".as_slice(), 0),
        (b"(* keep = \"*)\" *)".as_slice(), 13),
        (b"a \"".as_slice(), 2),
        (b"\x80".as_slice(), 0),
        (b"a\x01".as_slice(), 1),
        (b"a b\x7f/*".as_slice(), 3),
        (b"\x0b".as_slice(), 0),
        (b"\\a\x01".as_slice(), 2),
    ] {
        assert!(rt; text.len() < 100);
        match tokens(rt.alloc(), text) {
            Ok(_) => assert_eq!(rt; Some(at), None),
            Err(fault) => assert_eq!(rt; fault, LexFault::Syntax(at)),
        }
    }
}
