ghost use Rattle.std.specs.Prelude.{◌≡◌, ◌<◌, ◌≤◌, ◌+◌, ◌^◌, ◌∷◌, length, IfSome};
ghost use Rattle.sdf_lex.specs.Words.{is_white, is_plain, is_wordly, opens_comment, unit, word_length, string_unit, string_length, comment_length, line_length};
ghost use Rattle.sdf_lex.specs.Tokens.{begins, string_stretch, comment_stretch, sign_stretch, word_stretch, stretch};

use crate::lexemes::Kind;

#[inline]
fn is_white(byte: u8) -> bool
    ensures { result ≡ is_white byte }
{
    byte == b' ' || byte == b'\t' || byte == b'\n' || byte == b'\r' || byte == 12
}

#[inline]
fn is_plain(byte: u8) -> bool
    ensures { result ≡ is_plain byte }
{
    byte.is_ascii_alphanumeric() || byte == b'_' || byte == b'$'
}

#[inline]
fn is_wordly(byte: u8) -> bool
    ensures { result ≡ is_wordly byte }
{
    is_plain(byte) || byte == b'.' || byte == b'/' || byte == b'[' || byte == b']'
}

#[inline]
fn opens_comment(first: u8, second: u8) -> bool
    ensures { result ≡ opens_comment first second }
{
    first == b'/' && (second == b'/' || second == b'*')
}

/// How many bytes the first piece of a word takes.
#[inline]
fn unit(bytes: &[u8]) -> usize
    ensures piece { result ≡ unit bytes.now }
    ensures within { result ≤ length bytes.now }
    ensures small { result ≤ 2 }
{
    let Some((first, rest)) = bytes.split_first() else {
        return 0;
    };
    let Some(second) = rest.first() else {
        return usize::from(is_wordly(*first));
    };
    if *first == b'\\' {
        return if second.is_ascii_graphic() { 2 } else { 0 };
    }
    if is_wordly(*first) && !opens_comment(*first, *second) {
        1
    } else {
        0
    }
}

/// How many bytes the word at the front takes.
fn word_length(bytes: &[u8]) -> usize
    ensures length { result ≡ word_length bytes.now }
    ensures within { result ≤ length bytes.now }
{
    let mut place = 0;
    while place < bytes.len() {
        let size = unit(&bytes[place..]);
        if size == 0 {
            break;
        }
        place += size;
    }
    place
}

/// How many bytes a character of a string takes, which begins with this byte.
#[inline]
fn string_unit(byte: u8) -> usize
    ensures { result ≡ string_unit byte }
{
    if byte == b'\\' { 2 } else { 1 }
}

/// Behind the quote that opens a string: how many bytes there are up to and with the one that closes it.
fn string_length(bytes: &[u8]) -> Option<usize>
    requires { length bytes.now < 2 ^ 63 }
    ensures length { result ≡ string_length bytes.now }
    ensures within { IfSome result (λ n. n ≤ length bytes.now) }
{
    let mut place = 0;
    while place < bytes.len() {
        let byte = bytes[place];
        if byte == b'"' {
            return Some(place + 1);
        }
        place += string_unit(byte);
    }
    None
}

/// Behind `/*`: how many bytes there are up to and with the first `*/`.
fn comment_length(bytes: &[u8]) -> Option<usize>
    requires { length bytes.now < 2 ^ 63 }
    ensures length { result ≡ comment_length bytes.now }
    ensures within { IfSome result (λ n. n ≤ length bytes.now) }
{
    let mut place = 0;
    while place + 1 < bytes.len() {
        if bytes[place] == b'*' && bytes[place + 1] == b'/' {
            return Some(place + 2);
        }
        place += 1;
    }
    None
}

/// How many bytes there are before the first line feed.
fn line_length(bytes: &[u8]) -> usize
    ensures length { result ≡ line_length bytes.now }
    ensures within { result ≤ length bytes.now }
{
    let mut place = 0;
    while place < bytes.len() && bytes[place] != b'\n' {
        place += 1;
    }
    place
}

#[inline]
fn begins(byte: u8, bytes: &[u8]) -> bool
    ensures { result ≡ begins byte bytes.now }
{
    match bytes.first() {
        Some(first) => *first == byte,
        None => false,
    }
}

fn string_stretch(bytes: &[u8]) -> (Option<Kind>, usize)
    requires { length bytes.now < 2 ^ 63 }
    ensures kind { result ≡ string_stretch bytes.now (string_length bytes.now) }
    ensures some { 0 < result.1 }
    ensures within { result.1 ≤ 1 + length bytes.now }
{
    match string_length(bytes) {
        Some(length) => (Some(Kind::Quoted), 1 + length),
        None => (Some(Kind::Stray), 1 + bytes.len()),
    }
}

fn comment_stretch(bytes: &[u8]) -> (Option<Kind>, usize)
    requires { length bytes.now < 2 ^ 63 }
    ensures kind { result ≡ comment_stretch bytes.now (comment_length bytes.now) }
    ensures some { 0 < result.1 }
    ensures within { result.1 ≤ 2 + length bytes.now }
{
    match comment_length(bytes) {
        Some(length) => (None, 2 + length),
        None => (Some(Kind::Stray), 2 + bytes.len()),
    }
}

#[inline]
fn sign_stretch(byte: u8) -> (Option<Kind>, usize)
    ensures kind { result ≡ sign_stretch byte }
    ensures size { result.1 ≡ 1 }
{
    if !byte.is_ascii_graphic() || byte == b'\\' {
        (Some(Kind::Stray), 1)
    } else {
        (Some(Kind::Sign), 1)
    }
}

/// What stands at the front of a text where it is a word or a sign.
#[inline]
fn word_stretch(text: &[u8], first: u8, rest: &[u8]) -> (Option<Kind>, usize)
    requires front { text.now ≡ first ∷ rest.now }
    requires size { length text.now < 2 ^ 63 }
    ensures kind { result ≡ word_stretch first rest.now }
    ensures some { 0 < result.1 }
    ensures within { result.1 ≤ length text.now }
{
    if first == b'+' || first == b'-' {
        let length = word_length(rest);
        if length == 0 {
            (Some(Kind::Sign), 1)
        } else {
            (Some(Kind::Word), 1 + length)
        }
    } else {
        let length = word_length(text);
        if length == 0 {
            sign_stretch(first)
        } else {
            (Some(Kind::Word), length)
        }
    }
}

/// What stands at the front of a text: a token of this kind, or none where it is white space or a comment, and how many
/// bytes it takes.
#[tactic(auto, unfolding(crate::specs::Tokens::stretch))]
pub fn stretch(text: &[u8]) -> (Option<Kind>, usize)
    requires { length text.now < 2 ^ 63 }
    ensures kind { result ≡ stretch text.now }
    ensures some { 0 < length text.now → 0 < result.1 }
    ensures within { result.1 ≤ length text.now }
{
    let Some((first, rest)) = text.split_first() else {
        return (None, 0);
    };
    let byte = *first;
    if is_white(byte) {
        return (None, 1);
    }
    if byte == b'(' {
        return (Some(Kind::Open), 1);
    }
    if byte == b')' {
        return (Some(Kind::Close), 1);
    }
    if byte == b'"' {
        return string_stretch(rest);
    }
    if byte == b'/' && begins(b'/', rest) {
        return (None, 1 + line_length(rest));
    }
    if byte == b'/' && begins(b'*', rest) {
        return comment_stretch(&rest[1..]);
    }
    word_stretch(text, byte, rest)
}
