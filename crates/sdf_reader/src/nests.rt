ghost use Rattle.std.specs.Prelude.{◌≡◌, ◌<◌, ◌+◌, ◌^◌, IfSome};
ghost use Rattle.text_scan.specs.Gives.{Gives};
ghost use Rattle.sdf_reader.specs.Lefts.{tokens_left, Advances, Follows};
ghost use Rattle.sdf_reader.specs.Nests as nests;
ghost use Rattle.sdf_reader.specs.Nests.{depth_behind, ends_list};

use crate::marks::{begins_close, begins_open, is_close, is_stray, opening, token};
use line_text::Reading;
use sdf_lex::{Kind, next_token};

/// Whether a token of this kind closes the list.
#[inline]
fn ends_list(depth: usize, kind: Kind) -> bool
    ensures { result ≡ ends_list depth kind }
{
    is_close(kind) && depth == 0
}

/// How many lists are open behind a token of this kind.
#[inline]
fn depth_behind(depth: usize, kind: Kind) -> usize
    requires { depth + 1 < 2 ^ 63 }
    ensures { result ≡ depth_behind depth kind }
{
    match kind {
        Kind::Open => depth + 1,
        Kind::Close => depth.saturating_sub(1),
        _ => depth,
    }
}

/// Passes any tokens with balanced parentheses, and the `)` behind them.
///
/// It takes one pass over them and no memory, however deep they are nested.
pub fn balanced(left: Reading<'_>) -> Option<Reading<'_>>
    ensures read { Gives tokens_left result (nests.balanced (tokens_left left.entry)) }
    ensures on { IfSome result (Advances left.entry) }
{
    let breach = left.breach;
    let mut rest = left.rest;
    let mut depth = 0;
    while let Some((lexeme, behind)) = next_token(rest) {
        if is_stray(lexeme.kind) {
            return None;
        }
        if ends_list(depth, lexeme.kind) {
            return Some(Reading {
                rest: behind,
                breach,
            });
        }
        depth = depth_behind(depth, lexeme.kind);
        rest = behind;
    }
    None
}

/// Passes a nested list.
#[inline]
#[tactic(auto, unfolding(crate::specs::Nests::nested))]
pub fn nested(left: Reading<'_>) -> Option<Reading<'_>>
    ensures read { Gives tokens_left result (nests.nested (tokens_left left.entry)) }
    ensures on { IfSome result (Advances left.entry) }
{
    let left = opening(left)?;
    balanced(left)
}

/// Passes any number of nested lists.
pub fn lists(left: Reading<'_>) -> Option<Reading<'_>>
    ensures read { Gives tokens_left result (nests.lists (tokens_left left.entry)) }
    ensures on { IfSome result (Follows left.entry) }
{
    let mut rest = left;
    while begins_open(rest) {
        let Some(behind) = nested(rest) else {
            return None;
        };
        rest = behind;
    }
    Some(rest)
}

/// Passes a single token.
#[inline]
#[tactic(auto, unfolding(crate::specs::Nests::single))]
fn single(left: Reading<'_>) -> Option<Reading<'_>>
    ensures read { Gives tokens_left result (nests.single (tokens_left left.entry)) }
    ensures on { IfSome result (Advances left.entry) }
{
    let (lexeme, left) = token(left)?;
    if is_stray(lexeme.kind) {
        return None;
    }
    if is_close(lexeme.kind) {
        return None;
    }
    Some(left)
}

/// Passes an element of a list.
#[inline]
#[tactic(auto, unfolding(crate::specs::Nests::element))]
fn element(left: Reading<'_>) -> Option<Reading<'_>>
    ensures read { Gives tokens_left result (nests.element (tokens_left left.entry)) }
    ensures on { IfSome result (Advances left.entry) }
{
    if begins_open(left) {
        nested(left)
    } else {
        single(left)
    }
}

/// Passes the elements of a list before its last one.
pub fn before_last(left: Reading<'_>) -> Option<Reading<'_>>
    ensures read { Gives tokens_left result (nests.before_last (tokens_left left.entry)) }
    ensures on { IfSome result (Follows left.entry) }
{
    let mut rest = left;
    while let Some(behind) = element(rest) {
        if begins_close(behind) {
            return Some(rest);
        }
        rest = behind;
    }
    None
}
