ghost use Rattle.std.specs.Prelude.{◌≡◌, ◌≤◌, Option, IfSome};
ghost use Rattle.text_scan.specs.Gives.{Gives};
ghost use Rattle.sdf_lex.specs.Lexemes.{token_of};
ghost use Rattle.sdf_reader.specs.Lefts.{tokens_left, Advances, Follows};
ghost use Rattle.sdf_reader.specs.Headers as head;
ghost use Rattle.sdf_reader.specs.Headers.{divider_of, times_of, unit_of, scale_of, is_other_header, ends_headers};
ghost use Rattle.sdf_reader.specs.Settings.{set_of};

use crate::marks::{begins_open, begins_word, closing, is_keyword, opening, starts, token, word};
use crate::nests::balanced;
use crate::settings::Settings;
use line_text::Reading;
use sdf_lex::Lexeme;

#[inline]
fn divider_of(bytes: &[u8]) -> Option<u8>
    ensures { result ≡ divider_of bytes.now }
{
    if bytes == b".".as_slice() {
        Some(b'.')
    } else if bytes == b"/".as_slice() {
        Some(b'/')
    } else {
        None
    }
}

/// The content of a header DIVIDER.
#[tactic(auto, unfolding(crate::specs::Headers::divider))]
fn divider(left: Reading<'_>) -> Option<(u8, Reading<'_>)>
    ensures read { Gives (λ r. (r.0, tokens_left r.1)) result (head.divider (tokens_left left.entry)) }
    ensures on { IfSome result (λ r. Advances left.entry r.1) }
{
    let (lexeme, left) = word(left)?;
    let divider = divider_of(lexeme.span.bytes)?;
    let left = closing(left)?;
    Some((divider, left))
}

#[inline]
fn times_of(bytes: &[u8]) -> Option<u64>
    ensures number { result ≡ times_of bytes.now }
    ensures some { IfSome result (λ n. 1 ≤ n) }
    ensures most { IfSome result (λ n. n ≤ 100) }
{
    if bytes == b"1".as_slice() || bytes == b"1.0".as_slice() {
        Some(1)
    } else if bytes == b"10".as_slice() || bytes == b"10.0".as_slice() {
        Some(10)
    } else if bytes == b"100".as_slice() || bytes == b"100.0".as_slice() {
        Some(100)
    } else {
        None
    }
}

#[inline]
fn unit_of(bytes: &[u8]) -> Option<u64>
    ensures number { result ≡ unit_of bytes.now }
    ensures some { IfSome result (λ n. 1 ≤ n) }
    ensures most { IfSome result (λ n. n ≤ 1000000) }
{
    if bytes == b"us".as_slice() {
        Some(1000000)
    } else if bytes == b"ns".as_slice() {
        Some(1000)
    } else if bytes == b"ps".as_slice() {
        Some(1)
    } else {
        None
    }
}

/// A time scale in ps, from its number and its unit.
#[tactic(auto, unfolding(crate::specs::Headers::scale_of))]
fn scale_of(times: &[u8], unit: &[u8]) -> Option<u64>
    ensures number { result ≡ scale_of times.now unit.now }
    ensures some { IfSome result (λ n. 1 ≤ n) }
    ensures most { IfSome result (λ n. n ≤ 100000000) }
{
    let times = times_of(times)?;
    let unit = unit_of(unit)?;
    Some(times * unit)
}

#[tactic(auto, unfolding(crate::specs::Headers::two_words))]
fn two_words<'a>(first: &[u8], left: Reading<'a>) -> Option<(u64, Reading<'a>)>
    ensures read { Gives (λ r. (r.0, tokens_left r.1)) result (head.two_words first.now (tokens_left left.entry)) }
    ensures on { IfSome result (λ r. Follows left.entry r.1) }
    ensures some { IfSome result (λ r. 1 ≤ r.0) }
    ensures most { IfSome result (λ r. r.0 ≤ 100000000) }
{
    let (second, left) = word(left)?;
    let scale = scale_of(first, second.span.bytes)?;
    Some((scale, left))
}

#[tactic(auto, unfolding(crate::specs::Headers::one_word))]
fn one_word<'a>(first: &[u8], left: Reading<'a>) -> Option<(u64, Reading<'a>)>
    ensures read { Gives (λ r. (r.0, tokens_left r.1)) result (head.one_word first.now (tokens_left left.entry)) }
    ensures on { IfSome result (λ r. Follows left.entry r.1) }
    ensures some { IfSome result (λ r. 1 ≤ r.0) }
    ensures most { IfSome result (λ r. r.0 ≤ 100000000) }
{
    let (times, unit) = first.split_at(first.len().saturating_sub(2));
    let scale = scale_of(times, unit)?;
    Some((scale, left))
}

#[inline]
fn words<'a>(first: &[u8], left: Reading<'a>) -> Option<(u64, Reading<'a>)>
    ensures read { Gives (λ r. (r.0, tokens_left r.1)) result (head.words first.now (tokens_left left.entry)) }
    ensures on { IfSome result (λ r. Follows left.entry r.1) }
    ensures some { IfSome result (λ r. 1 ≤ r.0) }
    ensures most { IfSome result (λ r. r.0 ≤ 100000000) }
{
    if begins_word(left) {
        two_words(first, left)
    } else {
        one_word(first, left)
    }
}

/// The content of a header TIMESCALE, in ps.
#[tactic(auto, unfolding(crate::specs::Headers::timescale))]
fn timescale(left: Reading<'_>) -> Option<(u64, Reading<'_>)>
    ensures read { Gives (λ r. (r.0, tokens_left r.1)) result (head.timescale (tokens_left left.entry)) }
    ensures on { IfSome result (λ r. Advances left.entry r.1) }
    ensures some { IfSome result (λ r. 1 ≤ r.0) }
    ensures most { IfSome result (λ r. r.0 ≤ 100000000) }
{
    let (first, left) = word(left)?;
    let (scale, left) = words(first.span.bytes, left)?;
    let left = closing(left)?;
    Some((scale, left))
}

#[inline]
fn is_other_header(lexeme: Lexeme<'_>) -> bool
    ensures { result ≡ is_other_header (token_of lexeme.entry) }
{
    is_keyword(b"SDFVERSION", lexeme)
        || is_keyword(b"DESIGN", lexeme)
        || is_keyword(b"DATE", lexeme)
        || is_keyword(b"VENDOR", lexeme)
        || is_keyword(b"PROGRAM", lexeme)
        || is_keyword(b"VERSION", lexeme)
        || is_keyword(b"VOLTAGE", lexeme)
        || is_keyword(b"PROCESS", lexeme)
        || is_keyword(b"TEMPERATURE", lexeme)
}

/// The settings so far, and what is left.
#[derive(Clone, Copy)]
pub struct Heads<'a> {
    pub settings: Settings,
    pub left: Reading<'a>,
}

/// What stands behind the word of a header.
fn header_rest<'a>(lexeme: Lexeme<'_>, heads: Heads<'a>) -> Option<Heads<'a>>
    ensures read { Gives (λ r. (set_of r.settings, tokens_left r.left)) result (head.header_rest (token_of lexeme.entry) (set_of heads.entry.settings, tokens_left heads.entry.left)) }
    ensures on { IfSome result (λ r. Advances heads.entry.left r.left) }
{
    let Heads { settings, left } = heads;
    if is_keyword(b"DIVIDER", lexeme) {
        let (divider, left) = divider(left)?;
        let unit = settings.unit;
        let settings = Settings { divider, unit };
        return Some(Heads { settings, left });
    }
    if is_keyword(b"TIMESCALE", lexeme) {
        let (unit, left) = timescale(left)?;
        let divider = settings.divider;
        let settings = Settings { divider, unit };
        return Some(Heads { settings, left });
    }
    if !is_other_header(lexeme) {
        return None;
    }
    let left = balanced(left)?;
    Some(Heads { settings, left })
}

/// A header.
#[tactic(auto, unfolding(crate::specs::Headers::header))]
fn header(heads: Heads<'_>) -> Option<Heads<'_>>
    ensures read { Gives (λ r. (set_of r.settings, tokens_left r.left)) result (head.header (set_of heads.entry.settings, tokens_left heads.entry.left)) }
    ensures on { IfSome result (λ r. Advances heads.entry.left r.left) }
{
    let left = opening(heads.left)?;
    let (lexeme, left) = token(left)?;
    let settings = heads.settings;
    header_rest(lexeme, Heads { settings, left })
}

/// Whether a cell begins next, or no list at all.
#[inline]
fn ends_headers(left: Reading<'_>) -> bool
    ensures { (set : head.Set) → result ≡ ends_headers (set, tokens_left left.entry) }
{
    !begins_open(left) || starts(b"CELL", left)
}

/// Any number of headers.
pub fn headers(first: Heads<'_>) -> Option<Heads<'_>>
    ensures read { Gives (λ r. (set_of r.settings, tokens_left r.left)) result (head.headers (set_of first.entry.settings, tokens_left first.entry.left)) }
    ensures on { IfSome result (λ r. Follows first.entry.left r.left) }
{
    let mut heads = first;
    while !ends_headers(heads.left) {
        let Some(more) = header(heads) else {
            return None;
        };
        heads = more;
    }
    Some(heads)
}
