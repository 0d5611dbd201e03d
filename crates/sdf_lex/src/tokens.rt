ghost use Rattle.std.specs.Prelude.{◌≡◌, ◌<◌, ◌≤◌, ◌∷◌, [], ◌++◌, length, MatchOption, IfSome};
ghost use Rattle.line_text.specs.Spans.{part_of, stop};
ghost use Rattle.sdf_lex.specs.Tokens.{tokens, told};
ghost use Rattle.sdf_lex.specs.Lexemes.{token_of};

use crate::lexemes::{Kind, Lexeme};
use crate::stretches::stretch;
use line_text::Span;

/// The first stretch of a text that isn't empty: its kind, where it is a token, itself, and what is behind it.
#[inline]
fn split_stretch(text: Span<'_>) -> (Option<Kind>, Span<'_>, Span<'_>)
    requires { 0 < length text.bytes.now }
    ensures tokens { tokens (part_of text.entry) ≡ told result.0 (part_of result.1) ++ tokens (part_of result.2) }
    ensures order { (text.entry.at ≤ result.1.at) × (stop result.1 ≤ result.2.at) }
    ensures stop { stop result.2 ≡ stop text.entry }
    ensures shorter { length result.2.bytes.now < length text.entry.bytes.now }
{
    let (kind, size) = stretch(text.bytes);
    let first = Span {
        bytes: &text.bytes[..size],
        at: text.at,
    };
    let behind = Span {
        bytes: &text.bytes[size..],
        at: text.at + size,
    };
    (kind, first, behind)
}

/// The first token of a text, and what is behind it; None where there is none.
///
/// It takes time for the token and for the white space and comments before it, and no memory.
pub fn next_token(text: Span<'_>) -> Option<(Lexeme<'_>, Span<'_>)>
    ensures tokens { MatchOption result (tokens (part_of text.entry) ≡ [])
        (λ r. tokens (part_of text.entry) ≡ token_of r.0 ∷ tokens (part_of r.1)) }
    ensures order { IfSome result (λ r. (text.entry.at ≤ r.0.span.at) × (stop r.0.span ≤ r.1.at)) }
    ensures stop { IfSome result (λ r. stop r.1 ≡ stop text.entry) }
    ensures shorter { IfSome result (λ r. length r.1.bytes.now < length text.entry.bytes.now) }
{
    let mut rest = text;
    while !rest.bytes.is_empty() {
        let (kind, span, behind) = split_stretch(rest);
        if let Some(kind) = kind {
            return Some((Lexeme { kind, span }, behind));
        }
        rest = behind;
    }
    None
}
