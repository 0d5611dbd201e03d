ghost use Rattle.std.specs.Prelude.{◌≡◌, ◌==◌, ◌+◌, ◌<◌, ◌≤◌, ◌^◌, length, drop, IfSome};
ghost use Rattle.std.specs.Char.{is_ascii_graphic};
ghost use Rattle.std.specs.List.{prefix_len};
ghost use Rattle.verilog_lex.specs.Fronts.{begins, before_pair, block_comment, attribute, quoted, escaped, sign_front, front_of};
ghost use Rattle.verilog_lex.specs.Classes.{passes, IsFrontWithin};

use crate::classes::{Class, begins_name, passes, run_length};
use crate::kinds::Kind;

/// What stands at the front of a text.
#[derive(Clone, Copy)]
pub enum Front {
    /// White space, a comment or an attribute of this many bytes.
    Skipped(usize),
    /// A token of this many bytes.
    Found(Kind, usize),
    /// Neither, for what stands this many bytes behind the front.
    Refused(usize),
}

#[inline]
fn begins(bytes: &[u8], byte: u8) -> bool
    ensures { result ≡ begins (λ c. c == byte) bytes.now }
{
    match bytes.first() {
        Some(first) => *first == byte,
        None => false,
    }
}

#[inline]
fn begins_white(bytes: &[u8]) -> bool
    ensures { result ≡ begins (passes Class.White) bytes.now }
{
    match bytes.first() {
        Some(first) => passes(Class::White, *first),
        None => false,
    }
}

/// How many bytes stand before the first place at which these two stand one after the other.
fn before_pair(first: u8, second: u8, bytes: &[u8]) -> Option<usize>
    ensures first { result ≡ before_pair first second bytes.now }
    ensures within { IfSome result (λ n. n + 2 ≤ length bytes.now) }
{
    let mut at = 0;
    while at + 1 < bytes.len() {
        if (bytes[at] == first) & (bytes[at + 1] == second) {
            return Some(at);
        }
        at += 1;
    }
    None
}

/// What a `/*` is, by what stands behind it.
fn block_comment(behind: &[u8]) -> Front
    requires { length behind.now + 2 < 2 ^ 63 }
    ensures front { result ≡ block_comment (before_pair 42 47 behind.now) }
    ensures within { IsFrontWithin (length behind.now + 2) result }
{
    match before_pair(b'*', b'/', behind) {
        Some(length) => Front::Skipped(length + 4),
        None => Front::Refused(0),
    }
}

/// What a `(*` is, by what stands behind it.
fn attribute(behind: &[u8]) -> Front
    requires { length behind.now + 2 < 2 ^ 63 }
    ensures front { result ≡ attribute behind.now (before_pair 42 41 behind.now) }
    ensures within { IsFrontWithin (length behind.now + 2) result }
{
    match before_pair(b'*', b')', behind) {
        Some(length) => {
            let ascii = run_length(Class::Ascii, &behind[..length]);
            if ascii < length {
                return Front::Refused(ascii + 2);
            }
            Front::Skipped(length + 4)
        }
        None => Front::Refused(0),
    }
}

/// What a double quote is, by what stands behind it.
fn quoted(behind: &[u8]) -> Front
    requires { length behind.now + 1 < 2 ^ 63 }
    ensures front { result ≡ quoted behind.now }
    ensures within { IsFrontWithin (length behind.now + 1) result }
{
    let length = run_length(Class::OfString, behind);
    if begins(&behind[length..], b'"') {
        Front::Found(Kind::Quoted, length + 2)
    } else {
        Front::Refused(0)
    }
}

/// What a backslash is, by what stands behind it, first of all so many printable bytes.
fn escaped(behind: &[u8], printable: usize) -> Front
    requires size { length behind.now + 1 < 2 ^ 63 }
    requires printable { printable ≡ prefix_len is_ascii_graphic behind.now }
    ensures front { result ≡ escaped behind.now }
    ensures within { IsFrontWithin (length behind.now + 1) result }
{
    if 0 < printable && begins_white(&behind[printable..]) {
        Front::Found(Kind::Escaped, printable + 1)
    } else {
        Front::Found(Kind::Sign, 1)
    }
}

/// What stands at the front of a text with this first byte and these behind it. Where the first is a backslash, so many
/// printable bytes stand there with it.
#[inline]
#[tactic(auto, unfolding(crate::specs::Fronts::front_of))]
pub fn front_of(first: u8, behind: &[u8], printable: usize) -> Front
    requires size { length behind.now + 1 < 2 ^ 63 }
    requires printable { first ≡ 92 → printable ≡ prefix_len is_ascii_graphic behind.now + 1 }
    ensures front { result ≡ front_of first behind.now }
    ensures within { IsFrontWithin (length behind.now + 1) result }
{
    if begins_name(first) {
        return Front::Found(Kind::Name, run_length(Class::OfName, behind) + 1);
    }
    if passes(Class::White, first) {
        return Front::Skipped(run_length(Class::White, behind) + 1);
    }
    if first.is_ascii_digit() {
        return Front::Found(Kind::Number, run_length(Class::Digit, behind) + 1);
    }
    sign_front(first, behind, printable)
}

/// The same where the first byte is none of an identifier, white space or a digit.
#[tactic(auto, unfolding(crate::specs::Fronts::sign_front))]
fn sign_front(first: u8, behind: &[u8], printable: usize) -> Front
    requires size { length behind.now + 1 < 2 ^ 63 }
    requires printable { first ≡ 92 → printable ≡ prefix_len is_ascii_graphic behind.now + 1 }
    ensures front { result ≡ sign_front first behind.now }
    ensures within { IsFrontWithin (length behind.now + 1) result }
{
    if first == b'/' && begins(behind, b'/') {
        return Front::Skipped(run_length(Class::OfLine, behind) + 1);
    }
    if first == b'/' && begins(behind, b'*') {
        return block_comment(&behind[1..]);
    }
    if first == b'(' && begins(behind, b'*') && !begins(&behind[1..], b')') {
        return attribute(&behind[1..]);
    }
    if first == b'"' {
        return quoted(behind);
    }
    if first == b'\\' {
        return escaped(behind, printable - 1);
    }
    if passes(Class::Graphic, first) {
        return Front::Found(Kind::Sign, 1);
    }
    Front::Refused(0)
}
