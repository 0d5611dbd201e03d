ghost use Rattle.std.specs.Prelude.{◌≡◌, ◌+◌, ◌<◌, ◌≤◌, [], ◌∷◌, length, MatchOption, IfSome};
ghost use Rattle.std.specs.List.{position_or_len};
ghost use Rattle.line_text.specs.Parts.{IsCutOff, begins_comment, is_feed, is_row};
ghost use Rattle.line_text.specs.Spans.{part_of, stop};
ghost use Rattle.edit_reader.specs.Numbered.{lines_from, line_of};

use line_text::{Span, next_field};

/// Lines of a text from one of them on, and its number among all lines of the text.
#[derive(Clone, Copy)]
pub struct Lines<'a> {
    pub rest: Span<'a>,
    pub number: u32,
    ghost few: { number ≤ rest.at + 1 },
}

/// A line of a text with its number.
#[derive(Clone, Copy)]
pub struct NumberedLine<'a> {
    pub number: u32,
    pub part: Span<'a>,
}

#[inline(always)]
fn is_feed(byte: u8) -> bool
    ensures { result ≡ is_feed byte }
{
    byte == b'\n'
}

/// How many bytes stand before the first line feed.
#[inline]
fn first_length(bytes: &[u8]) -> usize
    ensures first { result ≡ position_or_len is_feed bytes.now }
    ensures within { result ≤ length bytes.now }
{
    for (i, byte) in bytes.iter().enumerate() {
        if is_feed(*byte) {
            return i;
        }
    }
    bytes.len()
}

/// The first line, and what is behind its line feed.
#[inline]
fn split_line<'a>(text: Span<'a>) -> (Span<'a>, Span<'a>)
    requires { 0 < length text.bytes.now }
    ensures cut { IsCutOff is_feed (part_of text.entry) (part_of result.0) (part_of result.1) }
    ensures order { (text.entry.at ≤ result.0.at) × (stop result.0 ≤ result.1.at) }
    ensures stop { stop result.1 ≡ stop text.entry }
    ensures on { text.entry.at < result.1.at }
    ensures shorter { length result.1.bytes.now < length text.entry.bytes.now }
{
    let length = first_length(text.bytes);
    let first = Span {
        bytes: &text.bytes[..length],
        at: text.at,
    };
    if length == text.bytes.len() {
        let end = Span {
            bytes: &text.bytes[length..],
            at: text.at + length,
        };
        return (first, end);
    }
    let behind = Span {
        bytes: &text.bytes[length + 1..],
        at: text.at + length + 1,
    };
    (first, behind)
}

#[inline]
fn begins_comment(line: &[u8]) -> bool
    ensures { result ≡ begins_comment line.now }
{
    match line.first() {
        Some(byte) => *byte == b'#',
        None => false,
    }
}

/// Whether the line is not skipped.
#[inline]
fn is_row(line: Span<'_>) -> bool
    ensures { result ≡ is_row (part_of line.entry) }
{
    !begins_comment(line.bytes) && next_field(line).is_some()
}

/// The next line that is not skipped, and the lines behind it.
pub fn next_line(text: Lines<'_>) -> Option<(NumberedLine<'_>, Lines<'_>)>
    requires { stop text.rest < 2147483648 }
    ensures lines { MatchOption result (lines_from text.entry.number (part_of text.entry.rest) ≡ [])
        (λ r. lines_from text.entry.number (part_of text.entry.rest) ≡ line_of r.0 ∷ lines_from r.1.number (part_of r.1.rest)) }
    ensures order { IfSome result (λ r. (text.entry.rest.at ≤ r.0.part.at) × (stop r.0.part ≤ r.1.rest.at)) }
    ensures stop { IfSome result (λ r. stop r.1.rest ≡ stop text.entry.rest) }
    ensures shorter { IfSome result (λ r. length r.1.rest.bytes.now < length text.entry.rest.bytes.now) }
{
    let mut rest = text.rest;
    let mut number = text.number;
    while !rest.bytes.is_empty() {
        let (part, behind) = split_line(rest);
        if is_row(part) {
            let line = NumberedLine { number, part };
            let others = Lines {
                rest: behind,
                number: number + 1,
            };
            return Some((line, others));
        }
        rest = behind;
        number += 1;
    }
    None
}
