use crate::{Cursor, Round, ScanFault};
use std::process::Abort;

/// The number at the front of the text comes to this many parts of the unit, and takes this many bytes.
fn comes_to(rt: &impl Abort, text: &[u8], unit: u64, round: Round, number: i64, length: usize) {
    assert!(rt; unit >= 1 && unit <= 100000000);
    let mut cursor = Cursor::new(text);
    match cursor.decimal(unit, round) {
        Ok(found) => assert_eq!(rt; found, number),
        Err(fault) => assert_eq!(rt; Some(fault), None),
    }
    assert_eq!(rt; cursor.at(), length);
}

/// No number is read, and the cursor stays.
fn refuses(rt: &impl Abort, text: &[u8], round: Round, fault: ScanFault) {
    let mut cursor = Cursor::new(text);
    cursor.skip();
    assert_eq!(rt; cursor.decimal(1000, round), Err(fault));
    assert_eq!(rt; cursor.at(), 1);
}

#[test]
fn nanoseconds(rt: HostRuntime) {
    for (text, round, number) in [
        (b"0.0001".as_slice(), Round::Up, 1),
        (b"0.0001".as_slice(), Round::Down, 0),
        (b"0.0015".as_slice(), Round::Up, 2),
        (b"0.0015".as_slice(), Round::Down, 1),
        (b"-0.0001".as_slice(), Round::Up, 0),
        (b"-0.0001".as_slice(), Round::Down, -1),
        (b"-0.0015".as_slice(), Round::Up, -1),
        (b"-0.0015".as_slice(), Round::Down, -2),
        (b"+12.".as_slice(), Round::Up, 12000),
        (b".5".as_slice(), Round::Down, 500),
        (b"007.100".as_slice(), Round::Up, 7100),
        (b"1000000.0009".as_slice(), Round::Down, 1000000000),
        (b"-1000000.0009".as_slice(), Round::Up, -1000000000),
        (
            b"0.0000000000000000000000000000001".as_slice(),
            Round::Up,
            1,
        ),
    ] {
        comes_to(&rt, text, 1000, round, number, text.len());
    }
}

#[test]
fn units_and_rests(rt: HostRuntime) {
    for (text, unit, number, length) in [
        (b"1.2.3".as_slice(), 10, 12, 3),
        (b"-3-4".as_slice(), 1, -3, 2),
        (b"2.5e3".as_slice(), 1, 3, 3),
        (b"9.99999999)".as_slice(), 100000000, 999999999, 10),
    ] {
        comes_to(&rt, text, unit, Round::Up, number, length);
    }
}

#[test]
fn refusals(rt: HostRuntime) {
    for (text, round, fault) in [
        (b" .".as_slice(), Round::Up, ScanFault::NotNumber),
        (b" ".as_slice(), Round::Up, ScanFault::NotNumber),
        (b" -".as_slice(), Round::Up, ScanFault::NotNumber),
        (b" -.".as_slice(), Round::Up, ScanFault::NotNumber),
        (b" --1".as_slice(), Round::Up, ScanFault::NotNumber),
        (b" x1".as_slice(), Round::Up, ScanFault::NotNumber),
        (
            b" 1000000.0009".as_slice(),
            Round::Up,
            ScanFault::OutOfRange,
        ),
        (
            b" -1000000.0009".as_slice(),
            Round::Down,
            ScanFault::OutOfRange,
        ),
        (
            b" 1000000.001".as_slice(),
            Round::Down,
            ScanFault::OutOfRange,
        ),
        (
            b" 99999999999999999999999999".as_slice(),
            Round::Down,
            ScanFault::OutOfRange,
        ),
    ] {
        refuses(&rt, text, round, fault);
    }
}

#[test]
fn steps(rt: HostRuntime) {
    let mut cursor = Cursor::new(b"a1");
    assert_eq!(rt; cursor.peek(), Some(b'a'));
    cursor.skip();
    assert_eq!(rt; cursor.decimal(5, Round::Up), Ok(5));
    assert_eq!(rt; cursor.peek(), None);
    cursor.skip();
    assert_eq!(rt; cursor.at(), 2);
}
