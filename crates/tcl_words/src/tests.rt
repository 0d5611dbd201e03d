use crate::{Command, TclFault, WordKind, bracket_words, commands, next_element};
use std::process::Abort;
use std::test::Fail;

/// The words of a command: of each its offset, a sign for its kind and its text, with a space behind.
fn show(rt: &(impl Abort + AllocGlobal), words: &Command, out: &mut Vec<u8>) -> Result<(), Fail> {
    for word in words.as_slice() {
        let sign = match word.kind {
            WordKind::Bare => '.',
            WordKind::Quoted => '"',
            WordKind::Braced => '{',
            WordKind::Bracket => '[',
        };
        let at = word.at;
        let start = format!(in rt.alloc(); "{at}{sign}")?;
        out.extend_from_slice(start.as_bytes())?;
        out.extend_from_slice(word.text.as_slice())?;
        out.push(b' ')?;
    }
    Ok(())
}

/// The commands of a text, with a bar behind each.
fn shown(rt: &(impl Abort + AllocGlobal), text: &[u8]) -> Result<Vec<u8>, Fail> {
    assert!(rt; text.len() < 2_147_483_648);
    let mut out = Vec::new(rt.alloc());
    match commands(rt.alloc(), text) {
        Ok(found) => {
            for words in found.as_slice() {
                show(rt, words, &mut out)?;
                out.push(b'|')?;
            }
        }
        Err(fault) => {
            assert!(rt; fault != TclFault::NoMemory);
            out.extend_from_slice(b"syntax")?;
        }
    }
    Ok(out)
}

#[test]
fn splits_commands(rt: HostRuntime) -> Result<(), Fail> {
    let cases: [(&[u8], &[u8]); 22] = [
        (b"a b;c\nd", b"0.a 2.b |4.c |6.d |"),
        (b" ;;\n \n", b""),
        (b"\r\t\x0ca \\\n b\\\nc", b"3.a 8.b 11.c |"),
        (b"# a\\\nb;#c\n #d \\\ne", b"5.b |16.e |"),
        (b"a #b", b"0.a 2.#b |"),
        (b"a\\\\\nb", b"0.a\\ |4.b |"),
        (b"\\# \\a\\;\\\"\\$\\ x", b"0.# 3.a;\"$ x |"),
        (b"q[3] a\\[b\\] _[0][12]/[ c]", b"syntax"),
        (
            b"q[3] a\\[b\\] _[0][12]/ \\.[1] ]}",
            b"0.q[3] 5.a[b] 12._[0][12]/ 22..[1] 28.]} |",
        ),
        (b"a\"b{c}#", b"0.a\"b{c}# |"),
        (b"\"a;[ \\\n\\\"\\$\n\" b", b"0\"a;[  \"$\n 14.b |"),
        (
            b"{a {b;}\n\\} \\{ \"$ [} {}",
            b"0{a {b;}\n\\} \\{ \"$ [ 20{ |",
        ),
        (
            b"[a \"]\" {]} ;#\n [b [c]] d[1]] e",
            b"0[a \"]\" {]} ;#\n [b [c]] d[1] 29.e |",
        ),
        (b"[] [\n]", b"0[ 3[\n |"),
        (b"\"\x80\" #\x80", b"syntax"),
        (b"\"a\\\x80\";# \x80", b"0\"a\x80 |"),
        (b"{a}\\\n{b}", b"0{a 5{b |"),
        (b"a\x01b", b"0.a\x01b |"),
        (b"[a]\n[b];\"c\";{d}", b"0[a |4[b |8\"c |12{d |"),
        (b"# \\", b""),
        (b"{a\\\nb}", b"0{a\\\nb |"),
        (b"[a\\\nb]", b"0[a\\\nb |"),
    ];
    for (text, expected) in cases {
        assert_eq!(rt; shown(&rt, text)?.as_slice(), expected);
    }
    Ok(())
}

#[test]
fn refuses_other_texts(rt: HostRuntime) -> Result<(), Fail> {
    let cases: [&[u8]; 24] = [
        b"$a",
        b"a$b",
        b"\"$a\"",
        b"set_load 1 [get_ports $x]",
        b"{a}{b}",
        b"[a]b",
        b"[{a}b]",
        b"[[a][b]]",
        b"\"a\"b",
        b"{a",
        b"{a\\}",
        b"\"a",
        b"[a",
        b"[a \"]",
        b"a.[3]",
        b"a[]",
        b"a[3",
        b"a[3x]",
        b"a[b]",
        b"\x80",
        b"{\x80}",
        b"\\\x80",
        b"a \\",
        b"[{a};]",
    ];
    for text in cases {
        assert_eq!(rt; shown(&rt, text)?.as_slice(), b"syntax".as_slice());
    }
    Ok(())
}

/// This many times the one sign, and this many times the other.
fn nested(
    rt: &impl AllocGlobal,
    opening: u8,
    opened: usize,
    closing: u8,
    closed: usize,
) -> Result<Vec<u8>, Fail> {
    let mut text = Vec::new(rt.alloc());
    for _ in 0..opened {
        text.push(opening)?;
    }
    for _ in 0..closed {
        text.push(closing)?;
    }
    Ok(text)
}

#[test]
fn nests_deep(rt: HostRuntime) -> Result<(), Fail> {
    for (opening, closing) in [(b'{', b'}'), (b'[', b']')] {
        let whole = nested(&rt, opening, 100_000, closing, 100_000)?;
        assert_eq!(rt; shown(&rt, whole.as_slice())?.len(), 200_002);
        let unclosed = nested(&rt, opening, 100_000, closing, 99_999)?;
        assert_eq!(rt;
            shown(&rt, unclosed.as_slice())?.as_slice(),
            b"syntax".as_slice()
        );
    }
    Ok(())
}

const WRITTEN: &[u8] = b"# Created by write_sdc
set sdc_version 2.1
set_units -time ns -resistance kOhm -capacitance pF -voltage V -current mA
current_design top
create_clock [get_ports clk] -name C -period 2 -waveform {0 1}
set_false_path -hold \\
  -from [list [get_pins {u/r1/CK}]]
set_input_delay -clock C -max 0.4 [get_ports in]
set_input_delay -clock C -min 0.1 [get_ports in]
set_output_delay -clock C 0.5 [get_ports out]
";

#[test]
fn splits_a_tools_text(rt: HostRuntime) -> Result<(), Fail> {
    let Ok(found) = commands(rt.alloc(), WRITTEN) else {
        assert!(rt; false);
        return Ok(());
    };
    let mut counts = Vec::new(rt.alloc());
    for words in found.as_slice() {
        counts.push(words.len())?;
    }
    assert_eq!(rt; counts.as_slice(), [3, 11, 2, 8, 4, 6, 6, 5].as_slice());
    Ok(())
}

#[test]
fn splits_brackets(rt: HostRuntime) -> Result<(), Fail> {
    let cases: [(&[u8], &[u8]); 5] = [
        (
            b"list [get_pins {u/r1/CK}]",
            b"7.list 12[get_pins {u/r1/CK} ",
        ),
        (b"a;#\nb \"c]\"\\\n", b"7.a;# 11.b 13\"c] "),
        (b"", b""),
        (b"a]", b"syntax"),
        (b"a[b]", b"syntax"),
    ];
    for (text, expected) in cases {
        let mut out = Vec::new(rt.alloc());
        match bracket_words(rt.alloc(), text, 7) {
            Ok(words) => show(&rt, &words, &mut out)?,
            Err(_) => out.extend_from_slice(b"syntax")?,
        }
        assert_eq!(rt; out.as_slice(), expected);
    }
    Ok(())
}

#[test]
fn splits_lists(rt: HostRuntime) -> Result<(), Fail> {
    let cases: [(WordKind, &[u8], &[u8]); 5] = [
        (WordKind::Braced, b" a  {b c}\\\nd\\ e\n", b"a|{b|c}|d\\|e|"),
        (WordKind::Braced, b"a\\\\ b\\", b"a\\\\|b\\|"),
        (WordKind::Quoted, b"a\\\nb", b"a\\|b|"),
        (WordKind::Quoted, b"a b\t", b"a|b|"),
        (WordKind::Braced, b" \\\n", b""),
    ];
    for (kind, text, expected) in cases {
        let mut out = Vec::new(rt.alloc());
        let mut rest = text;
        for _ in 0..text.len() {
            if let Some((element, behind)) = next_element(kind, rest) {
                out.extend_from_slice(element)?;
                out.push(b'|')?;
                rest = behind;
            }
        }
        assert_eq!(rt; out.as_slice(), expected);
    }
    Ok(())
}
