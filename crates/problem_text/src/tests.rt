use crate::{read_problem, write_problem};
use bud_base::{End, Item, NodeId, Problem, Start, TextFault};
use std::alloc::Global;
use std::process::Abort;
use std::test::Fail;

fn item(from: u32, to: u32, least: i64, greatest: i64, weight: u32) -> Item {
    Item {
        from: NodeId(from),
        to: NodeId(to),
        least,
        greatest,
        weight,
    }
}

fn start(node: u32, offset: i64) -> Start {
    Start {
        node: NodeId(node),
        offset,
    }
}

fn end(node: u32, require: i64) -> End {
    End {
        node: NodeId(node),
        require,
    }
}

/// The text reads as the problem with these parts.
fn reads(
    rt: &impl Abort,
    alloc: Global,
    text: &[u8],
    nodes: u32,
    items: &[Item],
    starts: &[Start],
    ends: &[End],
) {
    assert!(rt; text.len() < 1000);
    match read_problem(alloc, text) {
        Ok(problem) => {
            assert_eq!(rt; problem.nodes, nodes);
            assert_eq!(rt; problem.items.as_slice(), items);
            assert_eq!(rt; problem.starts.as_slice(), starts);
            assert_eq!(rt; problem.ends.as_slice(), ends);
        }
        Err(fault) => assert_eq!(rt; Some(fault), None),
    }
}

/// The text is refused for the number at this offset.
fn breaches(rt: &impl Abort, alloc: Global, text: &[u8], at: usize) {
    assert!(rt; text.len() < 1000);
    match read_problem(alloc, text) {
        Ok(_) => assert!(rt; false),
        Err(fault) => assert_eq!(rt; fault, TextFault::Value(at)),
    }
}

/// The text is refused for its form.
fn refuses(rt: &impl Abort, alloc: Global, text: &[u8]) {
    assert!(rt; text.len() < 1000);
    match read_problem(alloc, text) {
        Err(TextFault::Syntax(_)) => {}
        _ => assert!(rt; false),
    }
}

const CHAIN: &[u8] =
    b"problem 1\nnodes 3\nitem 0 1 40 100 3\nitem 1 2 30 90 2\nstart 0 0\nend 2 150\n";

#[test]
fn worked_problems(rt: HostRuntime) -> Result<(), Fail> {
    let alloc = rt.alloc();
    let chain = [item(0, 1, 40, 100, 3), item(1, 2, 30, 90, 2)];
    reads(&rt, alloc, CHAIN, 3, &chain, &[start(0, 0)], &[end(2, 150)]);
    reads(
        &rt,
        alloc,
        b"problem 1\nnodes 4\nitem 0 1 10 100 1\nitem 1 2 10 100 1\nitem 1 3 10 100 1\nstart 0 0\nend 2 100\nend 3 100\n",
        4,
        &[
            item(0, 1, 10, 100, 1),
            item(1, 2, 10, 100, 1),
            item(1, 3, 10, 100, 1),
        ],
        &[start(0, 0)],
        &[end(2, 100), end(3, 100)],
    );
    reads(
        &rt,
        alloc,
        b"problem 1\nnodes 3\nitem 0 1 0 100 1\nitem 1 2 0 100 1\nstart 0 0\nend 2 150\n",
        3,
        &[item(0, 1, 0, 100, 1), item(1, 2, 0, 100, 1)],
        &[start(0, 0)],
        &[end(2, 150)],
    );
    reads(&rt, alloc, b"problem 1\nnodes 0\n", 0, &[], &[], &[]);
    reads(&rt, alloc, b"problem 1\nnodes 1\n", 1, &[], &[], &[]);
    reads(
        &rt,
        alloc,
        b"problem 1\nnodes 2\nitem 0 1 0 5 1\nitem 1 0 0 5 1\nstart 0 0\nend 1 9\n",
        2,
        &[item(0, 1, 0, 5, 1), item(1, 0, 0, 5, 1)],
        &[start(0, 0)],
        &[end(1, 9)],
    );
    Ok(())
}

#[test]
fn written_text(rt: HostRuntime) -> Result<(), Fail> {
    match read_problem(rt.alloc(), CHAIN) {
        Ok(problem) => {
            let text = write_problem(rt.alloc(), &problem)?;
            assert_eq!(rt; text.as_slice(), CHAIN);
        }
        Err(fault) => assert_eq!(rt; Some(fault), None),
    }
    Ok(())
}

#[test]
fn numbers_out_of_range(rt: HostRuntime) {
    // The last has several, of which the first counts.
    for (text, at) in [
        (b"problem 1\nnodes 4294967296\n".as_slice(), 16),
        (b"problem 1\nnodes -1\n".as_slice(), 16),
        (
            b"problem 1\nnodes 2\nitem 4294967296 1 0 0 0\n".as_slice(),
            23,
        ),
        (b"problem 1\nnodes 2\nitem 0 -1 0 0 0\n".as_slice(), 25),
        (
            b"problem 1\nnodes 2\nitem 0 1 4611686018427387905 0 0\n".as_slice(),
            27,
        ),
        (
            b"problem 1\nnodes 2\nitem 0 1 0 -99999999999999999999999999 0\n".as_slice(),
            29,
        ),
        (
            b"problem 1\nnodes 2\nitem 0 1 0 0 4294967296\n".as_slice(),
            31,
        ),
        (b"problem 1\nnodes 2\nstart 4294967296 0\n".as_slice(), 24),
        (
            b"problem 1\nnodes 2\nstart 0 -4611686018427387905\n".as_slice(),
            26,
        ),
        (b"problem 1\nnodes 2\nend 4294967296 0\n".as_slice(), 22),
        (
            b"problem 1\nnodes 2\nend 0 99999999999999999999\n".as_slice(),
            24,
        ),
        (
            b"problem 1\nnodes 2\nitem 0 1 0 4611686018427387905 -1\nend -1 0".as_slice(),
            29,
        ),
    ] {
        breaches(&rt, rt.alloc(), text, at);
    }
}

#[test]
fn greatest_numbers(rt: HostRuntime) {
    reads(
        &rt,
        rt.alloc(),
        b"problem 1\nnodes 4294967295\nitem 4294967295 0 -4611686018427387904 4611686018427387904 4294967295\nend -0 007",
        4294967295,
        &[item(
            4294967295,
            0,
            -4611686018427387904,
            4611686018427387904,
            4294967295,
        )],
        &[],
        &[end(0, 7)],
    );
}

#[test]
fn truncated(rt: HostRuntime) {
    let text = b"problem 1\nnodes 3\nend 2 9\n";
    for length in 0..27 {
        let front = &text[..length];
        match length {
            17 | 18 => reads(&rt, rt.alloc(), front, 3, &[], &[], &[]),
            25 | 26 => reads(&rt, rt.alloc(), front, 3, &[], &[], &[end(2, 9)]),
            _ => refuses(&rt, rt.alloc(), front),
        }
    }
}

#[test]
fn blanks_and_comments(rt: HostRuntime) {
    let alloc = rt.alloc();
    reads(
        &rt,
        alloc,
        b"# \xff\n\n \t\n\tproblem  1 \n#x\nnodes\t 5\t\n\n",
        5,
        &[],
        &[],
        &[],
    );
    for text in [
        b"problem 1\nnodes 5\n # x\n".as_slice(),
        b"problem 1\r\nnodes 5\r\n".as_slice(),
        b"problem 1\nnodes 5\r\n".as_slice(),
        b"problem 1\nnodes 5\n\x80\n".as_slice(),
        b"problem 1\nnodes 5\x80\n".as_slice(),
    ] {
        refuses(&rt, alloc, text);
    }
}

#[test]
fn forms(rt: HostRuntime) {
    // The form comes before the ranges.
    for text in [
        b"problem 1\nnodes 4294967296\nend 0\n".as_slice(),
        b"".as_slice(),
        b"nodes 5\n".as_slice(),
        b"problem 1\nproblem 1\nnodes 5\n".as_slice(),
        b"problem 1\nnodes 5\nnodes 5\n".as_slice(),
        b"problem 01\nnodes 5\n".as_slice(),
        b"problem 2\nnodes 5\n".as_slice(),
        b"problem 1\nnodes 5 6\n".as_slice(),
        b"problem 1\nnodes +5\n".as_slice(),
        b"problem 1\nnodes 5.0\n".as_slice(),
        b"problem 1\nnodes -\n".as_slice(),
        b"problem 1\nnodes 5\nstart 0 0\nitem 0 1 0 0 0\n".as_slice(),
        b"problem 1\nnodes 5\nend 0 0\nstart 0 0\n".as_slice(),
        b"problem 1\nnodes 5\nitem 0 1 0 0\n".as_slice(),
        b"problem 1\nnodes 5\nitem 0 1 0 0 0 0\n".as_slice(),
        b"problem 1\nnodes 5\narc 0 1\n".as_slice(),
    ] {
        refuses(&rt, rt.alloc(), text);
    }
}
