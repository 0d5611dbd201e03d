ghost use Rattle.std.specs.Prelude.{◌≡◌, ◌+◌, ◌<◌, ◌≤◌, ℕ, Some, length, drop};
ghost use Rattle.std.specs.List.{All};
ghost use Rattle.std.specs.Option.{ForSome};
ghost use Rattle.verilog_lex.specs.Tokens.{IsWithin};
ghost use Rattle.verilog_words.specs.Outside.{is_plain, directive, behind_word, end_of_line, from_offset, at_directive, turn_at};
ghost use Rattle.verilog_words.specs.Turns.{turn_of, IsTurnWithin};

use crate::reserved::{is_reserved, is_skipped};
use verilog_lex::Token;

/// What is done at a token.
#[derive(Clone, Copy)]
pub enum Turn<'a> {
    /// A leaf, a primitive or a skipped line is passed, behind which these tokens stand.
    Passes(&'a [Token]),
    /// The token stands outside these, and behind it modules are leaves or not.
    Keeps(bool),
}

/// Whether it is an identifier that isn't escaped.
pub fn is_plain(text: &[u8], token: Token) -> bool
    requires { token.at + token.len ≤ length text.now }
    ensures { result ≡ is_plain text.now token }
{
    token.is_name() && !is_reserved(token.bytes(text))
}

/// The name of the directive that begins at the token, behind which these stand.
pub fn directive(text: &[u8], token: Token, behind: &[Token]) -> Option<Token>
    requires token { IsWithin (length text.now) token }
    requires behind { All (IsWithin (length text.now)) behind.now }
    ensures name { result ≡ directive text.now token behind.now }
    ensures within { ForSome result (λ name. (token.at + 1 ≡ name.at) × IsWithin (length text.now) name) }
{
    let (name, _) = behind.split_first()?;
    if token.is_sign(text, b'`') && token.at + 1 == name.at && is_plain(text, *name) {
        Some(*name)
    } else {
        None
    }
}

/// The tokens behind the first that is this word; none where none is.
fn behind_word<'a>(text: &[u8], word: &[u8], tokens: &'a [Token]) -> &'a [Token]
    requires { All (IsWithin (length text.now)) tokens.now }
    ensures behind { result.now ≡ behind_word text.now word.now tokens.now }
    ensures within { All (IsWithin (length text.now)) result.now }
    ensures shorter { length result.now ≤ length tokens.now }
{
    for (i, token) in tokens.iter().enumerate() {
        if token.is_word(text, word) {
            return &tokens[i + 1..];
        }
    }
    &tokens[tokens.len()..]
}

/// Where the line ends on which the offset stands.
fn end_of_line(text: &[u8], at: usize) -> usize
    requires { at ≤ length text.now }
    ensures { result ≡ end_of_line text.now at }
{
    let rest = &text[at..];
    for (i, byte) in rest.iter().enumerate() {
        if *byte == b'\n' {
            return at + i;
        }
    }
    text.len()
}

/// The tokens from the first on that begins at the offset or behind it.
fn from_offset(at: usize, tokens: &[Token]) -> &[Token]
    ensures behind { result.now ≡ from_offset at tokens.now }
    ensures within { (size : ℕ) → All (IsWithin size) tokens.now → All (IsWithin size) result.now }
    ensures shorter { length result.now ≤ length tokens.now }
{
    for (i, token) in tokens.iter().enumerate() {
        if token.at >= at {
            return &tokens[i..];
        }
    }
    &tokens[tokens.len()..]
}

/// What is done at a directive of this name.
fn at_directive<'a>(
    text: &[u8],
    leaves: bool,
    token: Token,
    behind: &'a [Token],
    name: Token,
) -> Turn<'a>
    requires token { IsWithin (length text.now) token }
    requires behind { All (IsWithin (length text.now)) behind.now }
    requires name { IsWithin (length text.now) name }
    ensures turn { turn_of result ≡ at_directive text.now leaves token behind.now (Some name) }
    ensures within { IsTurnWithin (length text.now) (length behind.now) result }
{
    let word = name.bytes(text);
    if is_skipped(word) {
        return Turn::Passes(from_offset(end_of_line(text, token.at), behind));
    }
    if word == b"celldefine".as_slice() {
        return Turn::Keeps(true);
    }
    if word == b"endcelldefine".as_slice() {
        return Turn::Keeps(false);
    }
    Turn::Keeps(leaves)
}

/// What is done at a token, behind which these stand, and at which a directive of this name begins, if one does.
#[tactic(auto, unfolding(crate::specs::Outside::turn_at))]
pub fn turn_at<'a>(
    text: &[u8],
    leaves: bool,
    token: Token,
    behind: &'a [Token],
    name: Option<Token>,
) -> Turn<'a>
    requires token { IsWithin (length text.now) token }
    requires behind { All (IsWithin (length text.now)) behind.now }
    requires name { ForSome name (λ n. (token.at + 1 ≡ n.at) × IsWithin (length text.now) n) }
    ensures turn { turn_of result ≡ turn_at text.now leaves token behind.now name }
    ensures within { IsTurnWithin (length text.now) (length behind.now) result }
{
    if leaves && token.is_word(text, b"module") {
        return Turn::Passes(behind_word(text, b"endmodule", behind));
    }
    if token.is_word(text, b"primitive") {
        return Turn::Passes(behind_word(text, b"endprimitive", behind));
    }
    match name {
        Some(name) => at_directive(text, leaves, token, behind, name),
        None => Turn::Keeps(leaves),
    }
}
