ghost use Rattle.std.specs.Prelude.{◌≡◌, ◌∷◌, [], ◌<◌, ◌≤◌, length, MatchOption, IfSome};
ghost use Rattle.tcl_words.specs.Characters.{is_gap, is_end, is_ascii, is_ordinary, is_digit, is_named, is_feed, meaning, is_special};
ghost use Rattle.tcl_words.specs.Scanning.{left, is_behind};

/// A character of a text.
#[derive(Clone, Copy, Debug)]
pub enum Character {
    /// A byte.
    Plain(u8),
    /// A backslash and the byte behind it.
    Escaped(u8),
}

/// Where words stand.
#[derive(Clone, Copy, Debug)]
pub enum Scope {
    /// In a command, which a line feed or `;` ends.
    Line,
    /// In brackets, where a line feed is white space.
    Brackets,
}

/// The character at an offset, and the offset behind it; None at the end of the text.
#[inline(always)]
#[tactic(auto, unfolding(crate::specs::Scanning::left, crate::specs::Characters::characters))]
pub fn next_character(text: &[u8], at: usize) -> Option<(Character, usize)>
    ensures first { MatchOption result (left text.now at ≡ []) (λ r. left text.now at ≡ r.0 ∷ left text.now r.1) }
    ensures order { IfSome result (λ r. (at < r.1) × (r.1 ≤ length text.now)) }
{
    let byte = *text.get(at)?;
    if byte == b'\\' {
        if let Some(escaped) = text.get(at + 1) {
            return Some((Character::Escaped(*escaped), at + 2));
        }
    }
    Some((Character::Plain(byte), at + 1))
}

/// Whether the character is white space.
#[inline(always)]
pub fn is_gap(scope: Scope, character: Character) -> bool
    ensures { result ≡ is_gap scope character }
{
    match character {
        Character::Plain(b' ' | b'\t' | b'\x0c' | b'\r') => true,
        Character::Plain(b'\n') => matches!(scope, Scope::Brackets),
        Character::Plain(_) => false,
        Character::Escaped(byte) => byte == b'\n',
    }
}

/// Whether the character ends a command, or brackets.
#[inline(always)]
pub fn is_end(scope: Scope, character: Character) -> bool
    ensures { result ≡ is_end scope character }
{
    match (scope, character) {
        (Scope::Line, Character::Plain(byte)) => byte == b'\n' || byte == b';',
        (Scope::Brackets, Character::Plain(byte)) => byte == b']',
        (_, Character::Escaped(_)) => false,
    }
}

/// Whether the character is white space or an end.
#[inline(always)]
pub fn is_behind(scope: Scope, character: Character) -> bool
    ensures { result ≡ is_behind scope character }
{
    is_gap(scope, character) || is_end(scope, character)
}

#[inline(always)]
pub fn is_ascii(character: Character) -> bool
    ensures { result ≡ is_ascii character }
{
    match character {
        Character::Plain(byte) => byte < 128,
        Character::Escaped(byte) => byte < 128,
    }
}

#[inline(always)]
fn is_special(character: Character) -> bool
    ensures { result ≡ is_special character }
{
    match character {
        Character::Plain(byte) => byte == b'$' || byte == b'[' || byte == b'\\',
        Character::Escaped(_) => false,
    }
}

/// Whether the character may stand in a bare word.
#[inline(always)]
pub fn is_ordinary(scope: Scope, character: Character) -> bool
    ensures { result ≡ is_ordinary scope character }
{
    is_ascii(character)
        && !is_gap(scope, character)
        && !is_end(scope, character)
        && !is_special(character)
}

#[inline(always)]
pub fn is_digit(character: Character) -> bool
    ensures { result ≡ is_digit character }
{
    match character {
        Character::Plain(byte) => byte.is_ascii_digit(),
        Character::Escaped(_) => false,
    }
}

/// Whether an index may stand directly behind the character.
#[inline(always)]
pub fn is_named(character: Character) -> bool
    ensures { result ≡ is_named character }
{
    match character {
        Character::Plain(byte) => byte.is_ascii_digit()
            || byte == b'_'
            || (b'@' < byte && byte < b'[')
            || (b'`' < byte && byte < b'{'),
        Character::Escaped(_) => true,
    }
}

/// Whether the character has a line feed.
#[inline(always)]
pub fn is_feed(character: Character) -> bool
    ensures { result ≡ is_feed character }
{
    match character {
        Character::Plain(byte) => byte == b'\n',
        Character::Escaped(byte) => byte == b'\n',
    }
}

/// The byte that the character stands for in a bare word or in quotes.
#[inline(always)]
pub fn meaning(character: Character) -> u8
    ensures { result ≡ meaning character }
{
    match character {
        Character::Plain(byte) => byte,
        Character::Escaped(b'\n') => b' ',
        Character::Escaped(byte) => byte,
    }
}
