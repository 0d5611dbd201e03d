use crate::read_policy;
use bud_base::{Text, TextFault};
use bud_design::PolicyLine;
use std::alloc::Global;
use std::process::Abort;

/// What a line names, one name behind the other; a clock stands last.
#[derive(Drop)]
struct Line<'a> {
    names: [&'a [u8]; 2],
    extra: i64,
    weight: u32,
    clock: &'a [u8],
}

fn clock_is(clock: &Option<Text>, name: &[u8]) -> bool {
    match clock {
        Some(clock) => clock.as_slice() == name,
        None => name.is_empty(),
    }
}

fn is_block(line: &PolicyLine, path: &[u8]) -> bool {
    match line {
        PolicyLine::Block(name) => name.as_slice() == path,
        _ => false,
    }
}

fn is_arc(line: &PolicyLine, wanted: &Line<'_>) -> bool {
    match line {
        PolicyLine::Arc {
            from,
            to,
            extra,
            weight,
            clock,
        } => {
            from.as_slice() == wanted.names[0]
                && to.as_slice() == wanted.names[1]
                && *extra == wanted.extra
                && *weight == wanted.weight
                && clock_is(clock, wanted.clock)
        }
        _ => false,
    }
}

/// The policy has these blocks, and then these arcs.
fn reads(
    rt: &impl Abort,
    alloc: Global,
    text: &[u8],
    version: u32,
    blocks: &[&[u8]],
    arcs: &[Line<'_>],
) {
    assert!(rt; text.len() < 1000);
    match read_policy(alloc, text) {
        Ok(policy) => {
            assert_eq!(rt; policy.version, version);
            let lines = policy.lines.as_slice();
            let (first, others) = match lines.split_at_checked(blocks.len()) {
                Some(parts) => parts,
                None => (lines, lines),
            };
            assert!(rt; first.len() == blocks.len());
            assert!(rt; others.len() == arcs.len());
            for (line, path) in first.iter().zip(blocks) {
                assert!(rt; is_block(line, path));
            }
            for (line, arc) in others.iter().zip(arcs) {
                assert!(rt; is_arc(line, arc));
            }
        }
        Err(fault) => assert_eq!(rt; Some(fault), None),
    }
}

fn arc<'a>(from: &'a [u8], to: &'a [u8], extra: i64, weight: u32) -> Line<'a> {
    Line {
        names: [from, to],
        extra,
        weight,
        clock: b"",
    }
}

#[test]
fn the_policy_of_one_block(rt: HostRuntime) {
    let text =
        b"policy 1\nblock u\narc g/A g/Z extra 900 weight 1\narc u/b1/A u/b1/Z extra 900 weight 2\narc u/b2/A u/b2/Z extra 5000 weight 1\n";
    let arcs = [
        arc(b"g/A", b"g/Z", 900, 1),
        arc(b"u/b1/A", b"u/b1/Z", 900, 2),
        arc(b"u/b2/A", b"u/b2/Z", 5000, 1),
    ];
    reads(&rt, rt.alloc(), text, 1, &[b"u"], &arcs);
}

#[test]
fn the_policy_of_two_blocks_and_a_clock(rt: HostRuntime) {
    let text =
        b"# x\n policy\t2\nblock x1\nblock x2\n\narc x1/g/A x1/g/Z extra 3000 weight 3\narc x1/g/B x1/g/Z extra 3000 weight 3\narc x2/a x2/s/D extra 9000 weight 1\narc x2/y out extra 9000 weight 1\narc x2/a x2/s/D extra 9000 weight 5 clock C2";
    let mut last = arc(b"x2/a", b"x2/s/D", 9000, 5);
    last.clock = b"C2";
    let arcs = [
        arc(b"x1/g/A", b"x1/g/Z", 3000, 3),
        arc(b"x1/g/B", b"x1/g/Z", 3000, 3),
        arc(b"x2/a", b"x2/s/D", 9000, 1),
        arc(b"x2/y", b"out", 9000, 1),
        last,
    ];
    reads(&rt, rt.alloc(), text, 2, &[b"x1", b"x2"], &arcs);
}

#[test]
fn defaults_and_instances(rt: HostRuntime) {
    let text =
        b"policy 2\ndefault extra 0 weight 1048576 clock C\ninst u extra 1000000000 weight 0\n";
    match read_policy(rt.alloc(), text) {
        Ok(policy) => {
            let lines = policy.lines.as_slice();
            assert!(&rt; lines.len() == 2);
            assert!(&rt; is_default(&lines[0], b"C"));
            assert!(&rt; is_inst(&lines[1], b"u"));
        }
        Err(fault) => assert_eq!(&rt; Some(fault), None),
    }
}

fn is_default(line: &PolicyLine, name: &[u8]) -> bool {
    match line {
        PolicyLine::Default {
            extra,
            weight,
            clock,
        } => *extra == 0 && *weight == 1048576 && clock_is(clock, name),
        _ => false,
    }
}

fn is_inst(line: &PolicyLine, name: &[u8]) -> bool {
    match line {
        PolicyLine::Inst {
            path,
            extra,
            weight,
            clock,
        } => {
            path.as_slice() == name && *extra == 1000000000 && *weight == 0 && clock_is(clock, b"")
        }
        _ => false,
    }
}

#[test]
fn numbers_out_of_range(rt: HostRuntime) {
    for (text, at) in [
        (
            b"policy 1\ndefault extra 1000000001 weight 1\n".as_slice(),
            23,
        ),
        (
            b"policy 1\ndefault extra -1 weight 1048577\n".as_slice(),
            23,
        ),
        (b"policy 1\ninst u extra 0 weight 1048577\n".as_slice(), 31),
    ] {
        assert!(&rt; text.len() < 1000);
        match read_policy(rt.alloc(), text) {
            Ok(_) => assert!(&rt; false),
            Err(fault) => assert_eq!(&rt; fault, TextFault::Value(at)),
        }
    }
}

#[test]
fn texts_of_another_form(rt: HostRuntime) {
    for (text, at) in [
        (b"".as_slice(), 0),
        (b"policy 3\n".as_slice(), 0),
        (b"policy 01\n".as_slice(), 0),
        (b"policy 1\nblock\n".as_slice(), 14),
        (b"policy 1\nblock u v\n".as_slice(), 17),
        (b"policy 1\ndelay a b 1\n".as_slice(), 9),
        (b"policy 1\ninst u extra 1.0 weight 1\n".as_slice(), 22),
        (b"policy 1\ndefault weight 1 extra 1\n".as_slice(), 17),
        (
            b"policy 1\ndefault extra 1 weight 1 clock C\n".as_slice(),
            34,
        ),
        (b"policy 2\ndefault extra 1 weight 1 clock\n".as_slice(), 39),
        (
            b"policy 2\ndefault extra 1 weight 1 edge C\n".as_slice(),
            34,
        ),
    ] {
        assert!(&rt; text.len() < 1000);
        match read_policy(rt.alloc(), text) {
            Ok(_) => assert!(&rt; false),
            Err(fault) => assert_eq!(&rt; fault, TextFault::Syntax(at)),
        }
    }
}
