use crate::{SdfFault, read_sdf};
use bud_syntax::{Edge, SdfFile, SdfKind, SdfRow};
use std::alloc::Global;
use std::process::Abort;

/// What a row says, in words that can be compared.
type Said<'a> = (&'a str, &'a str, &'a str, Option<Edge>, &'a str, i64);

fn is_row(row: &SdfRow, said: &Said<'_>) -> bool {
    let (cell, instance, from, edge, to, value) = *said;
    if row.cell.as_slice() != cell.as_bytes() || row.instance.as_slice() != instance.as_bytes() {
        return false;
    }
    match &row.kind {
        SdfKind::Cell => from == "cell",
        SdfKind::Delay {
            from: pin,
            edge: found,
            to: port,
            value: ps,
        } => {
            pin.as_slice() == from.as_bytes()
                && port.as_slice() == to.as_bytes()
                && *found == edge
                && *ps == value
        }
        SdfKind::Wire {
            from: pin,
            to: port,
            value: ps,
        } => {
            pin.as_slice() == from.as_bytes() && port.as_slice() == to.as_bytes() && *ps == value
        }
        SdfKind::Setup {
            pin,
            clock,
            edge: found,
            value: ps,
        } => {
            pin.as_slice() == from.as_bytes()
                && clock.as_slice() == to.as_bytes()
                && *found == edge
                && *ps == value
        }
    }
}

fn are_rows(file: &SdfFile, said: &[Said<'_>]) -> bool {
    let rows = file.rows.as_slice();
    if rows.len() != said.len() {
        return false;
    }
    for (row, words) in rows.iter().zip(said) {
        if !is_row(row, words) {
            return false;
        }
    }
    true
}

fn reads(rt: &impl Abort, alloc: Global, text: &[u8], said: &[Said<'_>]) {
    assert!(rt; text.len() < 1000000);
    match read_sdf(alloc, text) {
        Ok(file) => assert!(rt; are_rows(&file, said)),
        Err(_) => assert!(rt; false),
    }
}

/// The text is refused with this fault: its kind, its offset, and the word that it carries.
fn refuses(rt: &impl Abort, alloc: Global, text: &[u8], kind: &str, place: usize, word: &str) {
    assert!(rt; text.len() < 1000000);
    match read_sdf(alloc, text) {
        Err(SdfFault::Syntax(at)) => assert!(rt; kind == "syntax" && at <= text.len()),
        Err(SdfFault::Value(at)) => assert!(rt; kind == "value" && at == place),
        Err(SdfFault::Unsupported(found, at)) => {
            assert!(rt; kind == "unsupported" && at == place);
            assert!(rt; found.as_slice() == word.as_bytes());
        }
        Err(SdfFault::NoMemory) => assert!(rt; false),
        Ok(_) => assert!(rt; false),
    }
}

const TWO_COND: &[u8] = b"(DELAYFILE (CELL (CELLTYPE \"C\") (INSTANCE)
 (DELAY (ABSOLUTE (COND a==1'b0 (IOPATH A Z (0.030))) (COND \"high\" a (b) (IOPATH A Z (0.045)))))))";

const NAMES: &[u8] =
    b"(delayfile (DIVIDER /) (Divider .) (TIMESCALE 100 us) (TIMESCALE 10.0ps) // last
 (CELL (CELLTYPE \"A\\\"B\") (INSTANCE u.a\\.b\\[3\\].v[3])
 (DELAY (ABSOLUTE (CONDELSE (IOPATH (negedge \\a) Z\\/ () (7))) (INTERCONNECT u.p v.q (1.05))))
 (TIMINGCHECK (SETUPHOLD (COND e (posedge D)) (posedge CK) (3) (4) (a (b)) ()) (SKEW a b (1)))))";

const FIRST: &[u8] = b"(DELAYFILE (SDFVERSION \"3.0\") (DIVIDER /) (TIMESCALE 1ns)
(CELL (CELLTYPE \"BUF\") (INSTANCE g) (DELAY (ABSOLUTE (IOPATH A Z (0.10) (0.12)))))
(CELL (CELLTYPE \"BUF\") (INSTANCE u/b1) (DELAY (ABSOLUTE (IOPATH A Z (0.20) (0.15)))))
(CELL (CELLTYPE \"BUF\") (INSTANCE u/b2) (DELAY (ABSOLUTE (IOPATH A Z (0.30)))))
(CELL (CELLTYPE \"DFF\") (INSTANCE u/r1) (DELAY (ABSOLUTE (IOPATH (posedge CK) Q (0.25))))
 (TIMINGCHECK (SETUP D (posedge CK) (0.05)) (HOLD D (posedge CK) (0.01)))))";

const SECOND: &[u8] = b"(DELAYFILE (DIVIDER /) (TIMESCALE 1ps)
(CELL (CELLTYPE \"DFF\") (INSTANCE x1/r) (DELAY (ABSOLUTE (IOPATH (posedge CK) Q (500))))
 (TIMINGCHECK (SETUP D (posedge CK) (100))))
(CELL (CELLTYPE \"DFF\") (INSTANCE x2/s) (DELAY (ABSOLUTE (IOPATH (posedge CK) Q (500))))
 (TIMINGCHECK (SETUP D (posedge CK) (100))))
(CELL (CELLTYPE \"AND2\") (INSTANCE x1/g) (DELAY (ABSOLUTE (IOPATH A Z (300)) (IOPATH B Z (400))))))";

#[test]
fn texts(rt: HostRuntime) {
    let rise = Some(Edge::Rise);
    let alloc = rt.alloc();
    reads(
        &rt,
        alloc,
        TWO_COND,
        &[
            ("C", "", "cell", None, "", 0),
            ("C", "", "A", None, "Z", 30),
            ("C", "", "A", None, "Z", 45),
        ],
    );
    reads(
        &rt,
        alloc,
        NAMES,
        &[
            ("A\\\"B", "u/a\\.b\\[3\\]/v[3]", "cell", None, "", 0),
            (
                "A\\\"B",
                "u/a\\.b\\[3\\]/v[3]",
                "a",
                Some(Edge::Fall),
                "Z\\/",
                70,
            ),
            ("A\\\"B", "u/a\\.b\\[3\\]/v[3]", "u/p", None, "v/q", 11),
            ("A\\\"B", "u/a\\.b\\[3\\]/v[3]", "D", rise, "CK", 30),
        ],
    );
    reads(
        &rt,
        alloc,
        FIRST,
        &[
            ("BUF", "g", "cell", None, "", 0),
            ("BUF", "g", "A", None, "Z", 120),
            ("BUF", "u/b1", "cell", None, "", 0),
            ("BUF", "u/b1", "A", None, "Z", 200),
            ("BUF", "u/b2", "cell", None, "", 0),
            ("BUF", "u/b2", "A", None, "Z", 300),
            ("DFF", "u/r1", "cell", None, "", 0),
            ("DFF", "u/r1", "CK", rise, "Q", 250),
            ("DFF", "u/r1", "D", rise, "CK", 50),
        ],
    );
    reads(
        &rt,
        alloc,
        SECOND,
        &[
            ("DFF", "x1/r", "cell", None, "", 0),
            ("DFF", "x1/r", "CK", rise, "Q", 500),
            ("DFF", "x1/r", "D", rise, "CK", 100),
            ("DFF", "x2/s", "cell", None, "", 0),
            ("DFF", "x2/s", "CK", rise, "Q", 500),
            ("DFF", "x2/s", "D", rise, "CK", 100),
            ("AND2", "x1/g", "cell", None, "", 0),
            ("AND2", "x1/g", "A", None, "Z", 300),
            ("AND2", "x1/g", "B", None, "Z", 400),
        ],
    );
}

#[test]
fn values(rt: HostRuntime) {
    for (values, value) in [
        ("(1.2:1.5:)", 1500),
        ("(0.0001)", 1),
        ("()", 0),
        ("(0.3:0.2:0.15)", 150),
        ("(0.1) (0.3) (0.2:.25:)", 300),
        ("(-0.0015)", -1),
        ("(:0.5:)", 500),
        ("(::)", 0),
        ("(5.) (-6)", 5000),
        ("(-1000000.0005)", -1000000000),
    ] {
        let alloc = rt.alloc();
        let text = format!(in alloc;
            "(DELAYFILE (CELL (CELLTYPE \"C\") (INSTANCE i) (DELAY (ABSOLUTE (IOPATH A Z {values})))))"
        ).expect(&rt, "memory");
        reads(
            &rt,
            alloc,
            text.as_bytes(),
            &[
                ("C", "i", "cell", None, "", 0),
                ("C", "i", "A", None, "Z", value),
            ],
        );
    }
}

#[test]
fn refusals(rt: HostRuntime) {
    for (delay, kind, at, word) in [
        ("(IOPATH A Z (1) (1000000.0001))", "value", 86, ""),
        ("(IOPATH A Z (1e3))", "syntax", 0, ""),
        ("(IOPATH A/B Z (1))", "syntax", 0, ""),
        ("(IOPATH A Z)", "syntax", 0, ""),
        (
            "(IOPATH A Z (1)(2)(3)(4)(5)(6)(7)(8)(9)(1)(2)(3)(4))",
            "syntax",
            0,
            "",
        ),
        ("(/* ( */ Port A (1))", "unsupported", 78, "Port"),
    ] {
        let alloc = rt.alloc();
        let text = format!(in alloc;
            "(DELAYFILE (CELL (CELLTYPE \"PORT (PORT\") (INSTANCE) (DELAY (ABSOLUTE {delay}))))"
        ).expect(&rt, "memory");
        refuses(&rt, alloc, text.as_bytes(), kind, at, word);
    }
    for (text, kind, at, word) in [
        (
            b"(DELAYFILE (CELL (CELLTYPE \"C\") (INSTANCE *) (DELAY (INCREMENT))))".as_slice(),
            "unsupported",
            42,
            "*",
        ),
        (
            b"(DELAYFILE (HOLD (increment".as_slice(),
            "unsupported",
            18,
            "increment",
        ),
        (b"(DELAYFILE) /*".as_slice(), "syntax", 0, ""),
        (b"(DELAYFILE (DIVIDER :))".as_slice(), "syntax", 0, ""),
        (b"(DELAYFILE (TIMESCALE 1NS))".as_slice(), "syntax", 0, ""),
    ] {
        refuses(&rt, rt.alloc(), text, kind, at, word);
    }
    for length in 0..FIRST.len() {
        let alloc = rt.alloc();
        refuses(&rt, alloc, &FIRST[..length], "syntax", 0, "");
    }
}

#[test]
fn deep_lists(rt: HostRuntime) {
    let alloc = rt.alloc();
    let mut text = Vec::new(alloc);
    text.extend_from_slice(b"(DELAYFILE (CELL (CELLTYPE \"C\") (INSTANCE i) (TIMINGCHECK (HOLD ")
        .expect(&rt, "memory");
    for _ in 0..100000 {
        text.push(b'(').expect(&rt, "memory");
    }
    for _ in 0..100000 {
        text.push(b')').expect(&rt, "memory");
    }
    text.extend_from_slice(b"))))").expect(&rt, "memory");
    reads(
        &rt,
        alloc,
        text.as_slice(),
        &[("C", "i", "cell", None, "", 0)],
    );
}
