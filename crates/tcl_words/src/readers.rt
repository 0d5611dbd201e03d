ghost use Rattle.std.specs.Prelude.{◌≡◌, ◌≤◌, ◌<◌, ◌+◌, ◌^◌, ℕ, List, length, map, MatchOption, IfOk, IfSome};
ghost use Rattle.tcl_words.specs.Characters.{characters, meaning, is_end};
ghost use Rattle.tcl_words.specs.Scanning.{left, is_behind, ends_by, Stands};
ghost use Rattle.tcl_words.specs.Commands.{begins_hash};
ghost use Rattle.tcl_words.specs.Answers.{kind_of, between, text_of, IsEnclosed, IsWordAnswer, IsWordsAnswer, IsLineAnswer};
ghost use Rattle.tcl_words.specs.declared.characters.Character.{Character as Sign};
ghost use Rattle.tcl_words.specs.declared.words.Word.{Word as Item};

use crate::brackets::bracket_end;
use crate::characters::{Character, Scope, is_end, meaning, next_character};
use crate::ends::{ends_word, feed_place, gap_end, simple_end};
use crate::words::{Command, TclFault, Word, WordKind};
use bud_base::Text;
use std::alloc::{AllocError, Global};

/// How a word is written that begins with this character.
#[inline]
fn kind_of(first: Character) -> WordKind
    ensures { result ≡ kind_of first }
{
    match first {
        Character::Plain(b'"') => WordKind::Quoted,
        Character::Plain(b'{') => WordKind::Braced,
        Character::Plain(b'[') => WordKind::Bracket,
        _ => WordKind::Bare,
    }
}

/// The bytes that the characters of a bare word stand for, or those between quotes.
#[tactic(auto, unfolding(crate::specs::Scanning::left))]
fn meanings(alloc: Global, bytes: &[u8]) -> Result<Text, AllocError>
    ensures { IfOk result (λ text. text ≡ map meaning (characters bytes.now)) }
{
    let mut text = Vec::with_capacity(alloc, bytes.len())?;
    let mut at = 0;
    while let Some((character, behind)) = next_character(bytes, at) {
        text.push(meaning(character))?;
        at = behind;
    }
    Ok(Text::from_vec(text))
}

fn copy(alloc: Global, bytes: &[u8]) -> Result<Text, AllocError>
    ensures { IfOk result (λ text. text ≡ bytes.now) }
{
    Text::from_slice(alloc, bytes)
}

/// The bytes but the first and the last.
fn between(bytes: &[u8]) -> &[u8]
    requires { 2 ≤ length bytes.now }
    ensures { result.now ≡ between bytes.now }
{
    &bytes[1..bytes.len() - 1]
}

/// The bytes that a word stands for.
fn text_of(alloc: Global, kind: WordKind, bytes: &[u8]) -> Result<Text, AllocError>
    requires { IsEnclosed kind (length bytes.now) }
    ensures { IfOk result (λ text. text ≡ text_of kind bytes.now) }
{
    match kind {
        WordKind::Bare => meanings(alloc, bytes),
        WordKind::Quoted => meanings(alloc, between(bytes)),
        WordKind::Braced | WordKind::Bracket => copy(alloc, between(bytes)),
    }
}

/// The offset behind the word that begins here, and its kind; None where no whole word does.
fn word_end(text: &[u8], at: usize, scope: Scope) -> Option<(WordKind, usize)>
    requires { at ≤ length text.now }
    ensures stands { MatchOption result ((place : ℕ) (rest : List Sign) (word : Item) → Stands scope place (left text.now at) rest word → ⊥)
        (λ r. (place : ℕ) → (word : Item) × (Stands scope place (left text.now at) (left text.now r.1) word × (word.kind ≡ r.0))) }
    ensures order { IfSome result (λ r. (at < r.1) × (r.1 ≤ length text.now)) }
{
    let (first, behind) = next_character(text, at)?;
    match kind_of(first) {
        WordKind::Bracket => {
            let end = bracket_end(text, behind)?;
            if ends_word(text, end, scope) {
                Some((WordKind::Bracket, end))
            } else {
                None
            }
        }
        kind => {
            let end = simple_end(text, at, scope)?;
            Some((kind, end))
        }
    }
}

/// The word that begins here, and the offset behind it. The text begins at `base` in a larger one.
fn next_word(
    alloc: Global,
    text: &[u8],
    base: usize,
    at: usize,
    scope: Scope,
) -> Result<(Word, usize), TclFault>
    requires from { at ≤ length text.now }
    requires room { base + length text.now < 2 ^ 63 }
    ensures answer { IsWordAnswer scope text.now base at result }
    ensures order { IfOk result (λ r. (at < r.1) × (r.1 ≤ length text.now)) }
{
    let Some((kind, end)) = word_end(text, at, scope) else {
        return Err(TclFault::Syntax(base + at));
    };
    match text_of(alloc, kind, &text[at..end]) {
        Ok(text) => Ok((
            Word {
                at: base + at,
                kind,
                text,
            },
            end,
        )),
        Err(_) => Err(TclFault::NoMemory),
    }
}

/// Whether an end or nothing stands at the offset.
#[inline]
fn is_over(text: &[u8], at: usize, scope: Scope) -> bool
    ensures { result ≡ ends_by (is_end scope) (left text.now at) }
{
    match next_character(text, at) {
        Some((character, _)) => is_end(scope, character),
        None => true,
    }
}

/// The words from here up to an end, and its offset. The text begins at `base` in a larger one.
pub fn words(
    alloc: Global,
    text: &[u8],
    base: usize,
    at: usize,
    scope: Scope,
) -> Result<(Command, usize), TclFault>
    requires from { at ≤ length text.now }
    requires room { base + length text.now < 2 ^ 63 }
    ensures answer { IsWordsAnswer scope text.now base at result }
    ensures order { IfOk result (λ r. (at ≤ r.1) × (r.1 ≤ length text.now)) }
{
    let mut words = Vec::new(alloc);
    let mut end = at;
    'words: loop {
        let start = gap_end(text, end, scope);
        if is_over(text, start, scope) {
            return Ok((Command::from_vec(words), start));
        }
        let (word, behind) = next_word(alloc, text, base, start, scope)?;
        if words.push(word).is_err() {
            return Err(TclFault::NoMemory);
        }
        end = behind;
    }
}

/// Whether `#` stands at the offset.
#[inline]
fn begins_hash(text: &[u8], at: usize) -> bool
    ensures { result ≡ begins_hash (left text.now at) }
{
    match next_character(text, at) {
        Some((Character::Plain(byte), _)) => byte == b'#',
        _ => false,
    }
}

/// The words of the command from here on, of which a comment has none, and the offset of what ends it.
pub fn line(alloc: Global, text: &[u8], at: usize) -> Result<(Command, usize), TclFault>
    requires { at ≤ length text.now }
    ensures answer { IsLineAnswer text.now at result }
    ensures order { IfOk result (λ r. (at ≤ r.1) × (r.1 ≤ length text.now)) }
{
    let start = gap_end(text, at, Scope::Line);
    if begins_hash(text, start) {
        return Ok((Command::new(alloc), feed_place(text, start)));
    }
    words(alloc, text, 0, at, Scope::Line)
}
