ghost use Rattle.std.specs.Prelude.{◌≡◌};
ghost use Rattle.text_scan.specs.Gives.{Gives};
ghost use Rattle.line_text.specs.Spans.{part_of};
ghost use Rattle.sdf_lex.specs.Tokens.{tokens};
ghost use Rattle.sdf_lex.specs.Lexemes.{token_of};
ghost use Rattle.sdf_reader.specs.LeftOut.{is_left_out, behind_open, left_out_here, first_left_out};

use crate::marks::{is_keyword, is_mark, is_open};
use line_text::Span;
use sdf_lex::{Lexeme, next_token};

#[inline]
fn is_left_out(lexeme: Lexeme<'_>) -> bool
    ensures { result ≡ is_left_out (token_of lexeme.entry) }
{
    is_keyword(b"INCREMENT", lexeme)
        || is_keyword(b"PORT", lexeme)
        || is_keyword(b"DEVICE", lexeme)
        || is_keyword(b"NETDELAY", lexeme)
        || is_keyword(b"RETAIN", lexeme)
        || is_keyword(b"PATHPULSE", lexeme)
        || is_keyword(b"PATHPULSEPERCENT", lexeme)
        || is_keyword(b"GLOBALPATHPULSE", lexeme)
        || is_keyword(b"TIMINGENV", lexeme)
        || is_keyword(b"LABEL", lexeme)
}

/// Directly behind a `(`: a word left out, or the `*` behind INSTANCE.
fn behind_open(rest: Span<'_>) -> Option<Lexeme<'_>>
    ensures { Gives token_of result (behind_open (tokens (part_of rest.entry))) }
{
    let (word, rest) = next_token(rest)?;
    if is_left_out(word) {
        return Some(word);
    }
    let (lexeme, _) = next_token(rest)?;
    if is_keyword(b"INSTANCE", word) && is_mark(b"*", lexeme) {
        Some(lexeme)
    } else {
        None
    }
}

/// The same behind this token, where it is a `(`.
fn left_out_here<'a>(lexeme: Lexeme<'_>, rest: Span<'a>) -> Option<Lexeme<'a>>
    ensures { Gives token_of result (left_out_here (token_of lexeme.entry) (tokens (part_of rest.entry))) }
{
    if is_open(lexeme.kind) {
        behind_open(rest)
    } else {
        None
    }
}

/// The first word left out that stands directly behind a `(`, or `*` directly behind `(` and INSTANCE.
#[tactic(auto, unfolding(crate::specs::LeftOut::first_left_out))]
pub fn first_left_out(text: Span<'_>) -> Option<Lexeme<'_>>
    ensures { Gives token_of result (first_left_out (tokens (part_of text.entry))) }
{
    let mut rest = text;
    while let Some((lexeme, behind)) = next_token(rest) {
        if let Some(found) = left_out_here(lexeme, behind) {
            return Some(found);
        }
        rest = behind;
    }
    None
}
