ghost use Rattle.std.specs.Prelude.{◌≡◌, ◌<◌, ◌≤◌, length, IfSome};
ghost use Rattle.text_scan.specs.Gives.{Gives};
ghost use Rattle.tcl_words.specs.Commands.{behind_gap};
ghost use Rattle.tcl_words.specs.Scanning.{left, is_behind, ends_by, in_index, stage_behind, bare_rest, quoted_rest, braced_rest, rest_behind, simple_rest, from_feed};

use crate::characters::{
    Character, Scope, is_ascii, is_behind, is_digit, is_feed, is_gap, is_named, is_ordinary,
    next_character,
};

/// What stands before, in a bare word.
#[derive(Clone, Copy)]
pub enum Stage {
    /// No name character.
    Other,
    /// A name character, or an index.
    Name,
    /// The bracket that opens an index.
    Index,
    /// A digit of an index.
    Digit,
}

#[inline(always)]
fn in_index(stage: Stage) -> bool
    ensures { result ≡ in_index stage }
{
    match stage {
        Stage::Other | Stage::Name => false,
        Stage::Index | Stage::Digit => true,
    }
}

#[inline(always)]
fn ordinary(scope: Scope, character: Character) -> Option<Stage>
    ensures { result ≡ stage_behind scope Stage.Other character }
{
    if !is_ordinary(scope, character) {
        return None;
    }
    if is_named(character) {
        return Some(Stage::Name);
    }
    Some(Stage::Other)
}

#[inline(always)]
fn stage_behind(scope: Scope, stage: Stage, character: Character) -> Option<Stage>
    ensures { result ≡ stage_behind scope stage character }
{
    match (stage, character) {
        (Stage::Name, Character::Plain(b'[')) => Some(Stage::Index),
        (Stage::Name | Stage::Other, _) => ordinary(scope, character),
        (Stage::Digit, Character::Plain(b']')) => Some(Stage::Name),
        (Stage::Digit | Stage::Index, _) => {
            if is_digit(character) {
                Some(Stage::Digit)
            } else {
                None
            }
        }
    }
}

/// The offset behind white space.
pub fn gap_end(text: &[u8], at: usize, scope: Scope) -> usize
    requires { at ≤ length text.now }
    ensures rest { left text.now result ≡ behind_gap scope (left text.now at) }
    ensures order { (at ≤ result) × (result ≤ length text.now) }
{
    let mut end = at;
    while let Some((character, behind)) = next_character(text, end) {
        if !is_gap(scope, character) {
            return end;
        }
        end = behind;
    }
    end
}

/// Whether white space, an end or nothing stands at the offset.
#[inline]
pub fn ends_word(text: &[u8], at: usize, scope: Scope) -> bool
    ensures { result ≡ ends_by (is_behind scope) (left text.now at) }
{
    match next_character(text, at) {
        Some((character, _)) => is_behind(scope, character),
        None => true,
    }
}

/// The offset behind a bare word that goes on here; None where it can't end.
#[tactic(auto, unfolding(crate::specs::Scanning::bare_rest))]
fn bare_end(text: &[u8], at: usize, scope: Scope, begun: Stage) -> Option<usize>
    requires { at ≤ length text.now }
    ensures rest { Gives (left text.now) result (bare_rest scope begun (left text.now at)) }
    ensures order { IfSome result (λ end. (at ≤ end) × (end ≤ length text.now)) }
{
    let mut stage = begun;
    let mut end = at;
    while let Some((character, behind)) = next_character(text, end) {
        if !in_index(stage) & is_behind(scope, character) {
            return Some(end);
        }
        stage = stage_behind(scope, stage, character)?;
        end = behind;
    }
    if in_index(stage) { None } else { Some(end) }
}

/// The offset behind the quote that closes a word; None where there is none, or a dollar sign before it.
#[tactic(auto, unfolding(crate::specs::Scanning::quoted_rest))]
fn quoted_end(text: &[u8], at: usize) -> Option<usize>
    requires { at ≤ length text.now }
    ensures rest { Gives (left text.now) result (quoted_rest (left text.now at)) }
    ensures order { IfSome result (λ end. (at ≤ end) × (end ≤ length text.now)) }
{
    let mut end = at;
    while let Some((character, behind)) = next_character(text, end) {
        match character {
            Character::Plain(b'"') => return Some(behind),
            Character::Plain(b'$') => return None,
            _ => end = behind,
        }
    }
    None
}

/// The offset behind the brace that closes a word; None where there is none, or a byte past 127 before it.
#[tactic(auto, unfolding(crate::specs::Scanning::braced_rest))]
fn braced_end(text: &[u8], at: usize) -> Option<usize>
    requires { at ≤ length text.now }
    ensures rest { Gives (left text.now) result (braced_rest 0 (left text.now at)) }
    ensures order { IfSome result (λ end. (at ≤ end) × (end ≤ length text.now)) }
{
    let mut depth: usize = 0;
    let mut end = at;
    while let Some((character, behind)) = next_character(text, end) {
        if !is_ascii(character) {
            return None;
        }
        match character {
            Character::Plain(b'{') => depth += 1,
            Character::Plain(b'}') => {
                if depth == 0 {
                    return Some(behind);
                }
                depth -= 1;
            }
            _ => {}
        }
        end = behind;
    }
    None
}

/// The offset behind a word that begins with this character and isn't in brackets; None where there is none.
fn end_behind(text: &[u8], first: Character, at: usize, scope: Scope) -> Option<usize>
    requires { at ≤ length text.now }
    ensures rest { Gives (left text.now) result (rest_behind scope first (left text.now at)) }
    ensures order { IfSome result (λ end. (at ≤ end) × (end ≤ length text.now)) }
{
    match first {
        Character::Plain(b'"') => quoted_end(text, at),
        Character::Plain(b'{') => braced_end(text, at),
        Character::Plain(b'[') => None,
        _ => bare_end(text, at, scope, ordinary(scope, first)?),
    }
}

/// The offset behind a whole word that isn't in brackets; None where none stands here.
#[tactic(auto, unfolding(crate::specs::Scanning::simple_rest))]
pub fn simple_end(text: &[u8], at: usize, scope: Scope) -> Option<usize>
    ensures rest { Gives (left text.now) result (simple_rest scope (left text.now at)) }
    ensures order { IfSome result (λ end. (at < end) × (end ≤ length text.now)) }
{
    let (first, behind) = next_character(text, at)?;
    let end = end_behind(text, first, behind, scope)?;
    if ends_word(text, end, scope) {
        Some(end)
    } else {
        None
    }
}

/// The offset of the first character with a line feed, or the end of the text.
#[tactic(auto, unfolding(crate::specs::Scanning::from_feed))]
pub fn feed_place(text: &[u8], at: usize) -> usize
    requires { at ≤ length text.now }
    ensures rest { left text.now result ≡ from_feed (left text.now at) }
    ensures order { (at ≤ result) × (result ≤ length text.now) }
{
    let mut end = at;
    while let Some((character, behind)) = next_character(text, end) {
        if is_feed(character) {
            return end;
        }
        end = behind;
    }
    end
}
