ghost use Rattle.std.specs.Prelude.{◌≡◌, ◌≢◌, ◌+◌, ◌<◌, ◌≤◌, ◌∷◌, ◌++◌, [], length, drop, take, filter, not, MatchOption, IfSome};
ghost use Rattle.std.specs.List.{position_or_len, before_first};
ghost use Rattle.line_text.specs.Parts.{fields, rows, begins_comment, is_row, IsCutOff};
ghost use Rattle.line_text.specs.Spans.{part_of, cuts, stop};

use crate::spans::Span;

/// The bytes at which a part is cut.
#[derive(Clone, Copy)]
enum Cut {
    Feeds,
    Blanks,
}

#[inline(always)]
fn is_cut(cut: Cut, byte: u8) -> bool
    ensures { result ≡ cuts cut byte }
{
    match cut {
        Cut::Feeds => byte == b'\n',
        Cut::Blanks => byte == b' ' || byte == b'\t',
    }
}

/// How many bytes stand before the first at which the part is cut.
#[inline(always)]
fn first_length(cut: Cut, bytes: &[u8]) -> usize
    ensures first { result ≡ position_or_len (cuts cut) bytes.now }
    ensures within { result ≤ length bytes.now }
{
    for (i, byte) in bytes.iter().enumerate() {
        if is_cut(cut, *byte) {
            return i;
        }
    }
    bytes.len()
}

/// The first of the parts that a cut leaves, and what is behind the byte at which it is cut off.
#[inline(always)]
fn split_first<'a>(cut: Cut, part: Span<'a>) -> (Span<'a>, Span<'a>)
    requires { 0 < length part.bytes.now }
    ensures cut { IsCutOff (cuts cut) (part_of part.entry) (part_of result.0) (part_of result.1) }
    ensures order { (part.entry.at ≤ result.0.at) × (stop result.0 ≤ result.1.at) }
    ensures stop { stop result.1 ≡ stop part.entry }
    ensures shorter { length result.1.bytes.now < length part.entry.bytes.now }
{
    let length = first_length(cut, part.bytes);
    let first = Span {
        bytes: &part.bytes[..length],
        at: part.at,
    };
    if length == part.bytes.len() {
        let end = Span {
            bytes: &part.bytes[length..],
            at: part.at + length,
        };
        return (first, end);
    }
    let behind = Span {
        bytes: &part.bytes[length + 1..],
        at: part.at + length + 1,
    };
    (first, behind)
}

/// The next field of a line, and what is behind it in the line.
#[inline]
pub fn next_field(line: Span<'_>) -> Option<(Span<'_>, Span<'_>)>
    ensures parts { MatchOption result (fields (part_of line.entry) ≡ [])
        (λ r. fields (part_of line.entry) ≡ part_of r.0 ∷ fields (part_of r.1)) }
    ensures order { IfSome result (λ r. (line.entry.at ≤ r.0.at) × (stop r.0 ≤ r.1.at)) }
    ensures stop { IfSome result (λ r. stop r.1 ≡ stop line.entry) }
{
    let mut rest = line;
    while !rest.bytes.is_empty() {
        let (field, behind) = split_first(Cut::Blanks, rest);
        if !field.bytes.is_empty() {
            return Some((field, behind));
        }
        rest = behind;
    }
    None
}

#[inline]
fn begins_comment(line: &[u8]) -> bool
    ensures { result ≡ begins_comment line.now }
{
    match line.first() {
        Some(byte) => *byte == b'#',
        None => false,
    }
}

/// Whether the line is not skipped.
#[inline]
fn is_row(line: Span<'_>) -> bool
    ensures { result ≡ is_row (part_of line.entry) }
{
    !begins_comment(line.bytes) && next_field(line).is_some()
}

/// The next line of a text that is not skipped, and the text behind it.
pub fn next_row(text: Span<'_>) -> Option<(Span<'_>, Span<'_>)>
    ensures parts { MatchOption result (rows (part_of text.entry) ≡ [])
        (λ r. rows (part_of text.entry) ≡ fields (part_of r.0) ∷ rows (part_of r.1)) }
    ensures order { IfSome result (λ r. (text.entry.at ≤ r.0.at) × (stop r.0 ≤ r.1.at)) }
    ensures stop { IfSome result (λ r. stop r.1 ≡ stop text.entry) }
    ensures shorter { IfSome result (λ r. length r.1.bytes.now < length text.entry.bytes.now) }
{
    let mut rest = text;
    while !rest.bytes.is_empty() {
        let (line, behind) = split_first(Cut::Feeds, rest);
        if is_row(line) {
            return Some((line, behind));
        }
        rest = behind;
    }
    None
}
