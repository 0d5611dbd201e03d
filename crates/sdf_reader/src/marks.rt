ghost use Rattle.std.specs.Prelude.{◌≡◌, ◌≤◌, ◌+◌, length, codes, IfSome};
ghost use Rattle.std.specs.Str.{str_eq_ignore_ascii_case};
ghost use Rattle.text_scan.specs.Gives.{Gives};
ghost use Rattle.text_scan.specs.Left.{next};
ghost use Rattle.line_text.specs.Spans.{stop};
ghost use Rattle.sdf_lex.specs.Lexemes.{token_of};
ghost use Rattle.sdf_reader.specs.Lefts.{tokens_left, Advances};
ghost use Rattle.sdf_reader.specs.Marks as marks;
ghost use Rattle.sdf_reader.specs.Marks.{next_is, opens, closes, inside_quotes};

use line_text::Reading;
use sdf_lex::{Kind, Lexeme, next_token};

#[inline]
pub fn is_open(kind: Kind) -> bool
    ensures { result ≡ marks.is_open kind }
{
    match kind {
        Kind::Open => true,
        _ => false,
    }
}

#[inline]
pub fn is_close(kind: Kind) -> bool
    ensures { result ≡ marks.is_close kind }
{
    match kind {
        Kind::Close => true,
        _ => false,
    }
}

#[inline]
pub fn is_quoted(kind: Kind) -> bool
    ensures { result ≡ marks.is_quoted kind }
{
    match kind {
        Kind::Quoted => true,
        _ => false,
    }
}

#[inline]
pub fn is_word(kind: Kind) -> bool
    ensures { result ≡ marks.is_word kind }
{
    match kind {
        Kind::Word => true,
        _ => false,
    }
}

#[inline]
pub fn is_sign(kind: Kind) -> bool
    ensures { result ≡ marks.is_sign kind }
{
    match kind {
        Kind::Sign => true,
        _ => false,
    }
}

#[inline]
pub fn is_stray(kind: Kind) -> bool
    ensures { result ≡ marks.is_stray kind }
{
    match kind {
        Kind::Stray => true,
        _ => false,
    }
}

/// Whether two words are one but for their letters' case.
#[inline]
fn is_same_word(word: &[u8], other: &[u8]) -> bool
    ensures { result ≡ str_eq_ignore_ascii_case word.now other.now }
{
    word.eq_ignore_ascii_case(other)
}

/// Whether the token is this keyword, in either case.
#[inline]
pub fn is_keyword(word: &[u8], lexeme: Lexeme<'_>) -> bool
    ensures { result ≡ marks.is_keyword word.now (token_of lexeme.entry) }
{
    is_word(lexeme.kind) && is_same_word(lexeme.span.bytes, word)
}

/// Whether the token is this sign.
#[inline]
pub fn is_mark(mark: &[u8], lexeme: Lexeme<'_>) -> bool
    ensures { result ≡ marks.is_mark mark.now (token_of lexeme.entry) }
{
    is_sign(lexeme.kind) && lexeme.span.bytes == mark
}

/// The next token.
#[inline]
pub fn token(left: Reading<'_>) -> Option<(Lexeme<'_>, Reading<'_>)>
    ensures read { Gives (λ r. (token_of r.0, tokens_left r.1)) result (next (tokens_left left.entry)) }
    ensures on { IfSome result (λ r. Advances left.entry r.1) }
    ensures place { IfSome result (λ r. (left.entry.rest.at ≤ r.0.span.at) × (stop r.0.span ≤ r.1.rest.at)) }
{
    let (lexeme, rest) = next_token(left.rest)?;
    let breach = left.breach;
    Some((lexeme, Reading { rest, breach }))
}

#[inline]
pub fn begins_open(left: Reading<'_>) -> bool
    ensures { result ≡ next_is opens (tokens_left left.entry) }
{
    match next_token(left.rest) {
        Some((lexeme, _)) => is_open(lexeme.kind),
        None => false,
    }
}

#[inline]
pub fn begins_close(left: Reading<'_>) -> bool
    ensures { result ≡ next_is closes (tokens_left left.entry) }
{
    match next_token(left.rest) {
        Some((lexeme, _)) => is_close(lexeme.kind),
        None => false,
    }
}

#[inline]
pub fn begins_word(left: Reading<'_>) -> bool
    ensures { result ≡ next_is (λ token. marks.is_word token.kind) (tokens_left left.entry) }
{
    match next_token(left.rest) {
        Some((lexeme, _)) => is_word(lexeme.kind),
        None => false,
    }
}

#[inline]
pub fn begins_colon(left: Reading<'_>) -> bool
    ensures { result ≡ next_is (marks.is_mark (codes ":")) (tokens_left left.entry) }
{
    match next_token(left.rest) {
        Some((lexeme, _)) => is_mark(b":", lexeme),
        None => false,
    }
}

/// Passes `(`.
#[inline]
#[tactic(auto, unfolding(crate::specs::Marks::opening))]
pub fn opening(left: Reading<'_>) -> Option<Reading<'_>>
    ensures read { Gives tokens_left result (marks.opening (tokens_left left.entry)) }
    ensures on { IfSome result (Advances left.entry) }
{
    let (lexeme, left) = token(left)?;
    if is_open(lexeme.kind) {
        Some(left)
    } else {
        None
    }
}

/// Passes `)`.
#[inline]
#[tactic(auto, unfolding(crate::specs::Marks::closing))]
pub fn closing(left: Reading<'_>) -> Option<Reading<'_>>
    ensures read { Gives tokens_left result (marks.closing (tokens_left left.entry)) }
    ensures on { IfSome result (Advances left.entry) }
{
    let (lexeme, left) = token(left)?;
    if is_close(lexeme.kind) {
        Some(left)
    } else {
        None
    }
}

/// Passes `:`.
#[inline]
#[tactic(auto, unfolding(crate::specs::Marks::colon))]
pub fn colon(left: Reading<'_>) -> Option<Reading<'_>>
    ensures read { Gives tokens_left result (marks.colon (tokens_left left.entry)) }
    ensures on { IfSome result (Advances left.entry) }
{
    let (lexeme, left) = token(left)?;
    if is_mark(b":", lexeme) {
        Some(left)
    } else {
        None
    }
}

/// Passes this keyword, in either case.
#[inline]
#[tactic(auto, unfolding(crate::specs::Marks::keyword))]
pub fn keyword<'a>(word: &[u8], left: Reading<'a>) -> Option<Reading<'a>>
    ensures read { Gives tokens_left result (marks.keyword word.now (tokens_left left.entry)) }
    ensures on { IfSome result (Advances left.entry) }
{
    let (lexeme, left) = token(left)?;
    if is_keyword(word, lexeme) {
        Some(left)
    } else {
        None
    }
}

/// Passes `(` and this keyword.
#[inline]
#[tactic(auto, unfolding(crate::specs::Marks::opened))]
pub fn opened<'a>(word: &[u8], left: Reading<'a>) -> Option<Reading<'a>>
    ensures read { Gives tokens_left result (marks.opened word.now (tokens_left left.entry)) }
    ensures on { IfSome result (Advances left.entry) }
{
    let left = opening(left)?;
    keyword(word, left)
}

/// Whether `(` and this keyword stand next.
#[inline]
#[tactic(auto, unfolding(crate::specs::Marks::starts))]
pub fn starts(word: &[u8], left: Reading<'_>) -> bool
    ensures { result ≡ marks.starts word.now (tokens_left left.entry) }
{
    opened(word, left).is_some()
}

/// The next token, which is a word.
#[inline]
#[tactic(auto, unfolding(crate::specs::Marks::word))]
pub fn word(left: Reading<'_>) -> Option<(Lexeme<'_>, Reading<'_>)>
    ensures read { Gives (λ r. (token_of r.0, tokens_left r.1)) result (marks.word (tokens_left left.entry)) }
    ensures on { IfSome result (λ r. Advances left.entry r.1) }
    ensures place { IfSome result (λ r. r.0.span.at ≤ r.1.rest.at) }
{
    let (lexeme, left) = token(left)?;
    if is_word(lexeme.kind) {
        Some((lexeme, left))
    } else {
        None
    }
}

/// What stands between a string's quotes; of less than two bytes, nothing.
#[inline]
fn inside_quotes(bytes: &[u8]) -> &[u8]
    ensures { result.now ≡ inside_quotes bytes.now }
{
    if bytes.len() < 2 {
        return &bytes[bytes.len()..];
    }
    &bytes[1..bytes.len() - 1]
}

/// What stands between the quotes of the next token, which is a string.
#[inline]
#[tactic(auto, unfolding(crate::specs::Marks::string))]
pub fn string(left: Reading<'_>) -> Option<(&[u8], Reading<'_>)>
    ensures read { Gives (λ r. (r.0.now, tokens_left r.1)) result (marks.string (tokens_left left.entry)) }
    ensures on { IfSome result (λ r. Advances left.entry r.1) }
{
    let (lexeme, left) = token(left)?;
    if is_quoted(lexeme.kind) {
        Some((inside_quotes(lexeme.span.bytes), left))
    } else {
        None
    }
}
