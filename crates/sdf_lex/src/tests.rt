use crate::{Kind, next_token};
use line_text::Reading;
use std::process::Abort;

/// The text has tokens of these kinds at these offsets, and of these lengths.
fn has(rt: &impl Abort, text: &[u8], tokens: &[(Kind, usize, usize)]) {
    assert!(rt; text.len() < 1000);
    let mut rest = Reading::new(text).rest;
    for (kind, at, length) in tokens {
        match next_token(rest) {
            Some((lexeme, behind)) => {
                assert_eq!(rt; lexeme.kind, *kind);
                assert_eq!(rt; lexeme.span.at, *at);
                assert_eq!(rt; lexeme.span.bytes.len(), *length);
                rest = behind;
            }
            None => assert_eq!(rt; *at, text.len()),
        }
    }
    assert!(rt; next_token(rest).is_none());
}

#[test]
fn kinds(rt: HostRuntime) {
    has(
        &rt,
        b"(CELL /* ( */ \"a\\\")\" // x\n-1.5: a\\(b[3])=",
        &[
            (Kind::Open, 0, 1),
            (Kind::Word, 1, 4),
            (Kind::Quoted, 14, 6),
            (Kind::Word, 26, 4),
            (Kind::Sign, 30, 1),
            (Kind::Word, 32, 7),
            (Kind::Close, 39, 1),
            (Kind::Sign, 40, 1),
        ],
    );
    has(&rt, b"a/b a//b", &[(Kind::Word, 0, 3), (Kind::Word, 4, 1)]);
    has(
        &rt,
        b"\\ \xff*/",
        &[
            (Kind::Stray, 0, 1),
            (Kind::Stray, 2, 1),
            (Kind::Sign, 3, 1),
            (Kind::Word, 4, 1),
        ],
    );
    has(&rt, b"+ \"x", &[(Kind::Sign, 0, 1), (Kind::Stray, 2, 2)]);
    has(&rt, b"/*/", &[(Kind::Stray, 0, 3)]);
}
