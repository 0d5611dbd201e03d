ghost use Rattle.std.specs.Prelude.{◌≡◌, ◌≤◌, IfSome};
ghost use Rattle.text_scan.specs.Gives.{Gives};
ghost use Rattle.sdf_lex.specs.Lexemes.{token_of};
ghost use Rattle.sdf_reader.specs.Lefts.{tokens_left, Advances};
ghost use Rattle.sdf_reader.specs.Entries as entries;
ghost use Rattle.sdf_reader.specs.Entries.{edge_of};
ghost use Rattle.sdf_reader.specs.Said.{port_of, kind_of};

use crate::marks::{begins_open, closing, is_keyword, opened, opening, starts, token};
use crate::names::name;
use crate::nests::before_last;
use crate::said::{Port, Said};
use crate::values::values;
use bud_syntax::Edge;
use line_text::Reading;
use sdf_lex::Lexeme;

#[inline]
fn edge_of(lexeme: Lexeme<'_>) -> Option<Edge>
    ensures { result ≡ edge_of (token_of lexeme.entry) }
{
    if is_keyword(b"posedge", lexeme) {
        Some(Edge::Rise)
    } else if is_keyword(b"negedge", lexeme) {
        Some(Edge::Fall)
    } else {
        None
    }
}

/// The next token, which is an edge.
#[inline]
#[tactic(auto, unfolding(crate::specs::Entries::edge))]
fn edge(left: Reading<'_>) -> Option<(Edge, Reading<'_>)>
    ensures read { Gives (λ r. (r.0, tokens_left r.1)) result (entries.edge (tokens_left left.entry)) }
    ensures on { IfSome result (λ r. Advances left.entry r.1) }
{
    let (lexeme, left) = token(left)?;
    let edge = edge_of(lexeme)?;
    Some((edge, left))
}

#[inline]
#[tactic(auto, unfolding(crate::specs::Entries::edged_port))]
fn edged_port(divider: u8, left: Reading<'_>) -> Option<(Port<'_>, Reading<'_>)>
    ensures read { Gives (λ r. (port_of divider r.0, tokens_left r.1)) result (entries.edged_port divider (tokens_left left.entry)) }
    ensures on { IfSome result (λ r. Advances left.entry r.1) }
{
    let left = opening(left)?;
    let (edge, left) = edge(left)?;
    let (name, left) = name(divider, left)?;
    let left = closing(left)?;
    let edge = Some(edge);
    Some((Port { edge, name }, left))
}

#[inline]
#[tactic(auto, unfolding(crate::specs::Entries::plain_port))]
fn plain_port(divider: u8, left: Reading<'_>) -> Option<(Port<'_>, Reading<'_>)>
    ensures read { Gives (λ r. (port_of divider r.0, tokens_left r.1)) result (entries.plain_port divider (tokens_left left.entry)) }
    ensures on { IfSome result (λ r. Advances left.entry r.1) }
{
    let (name, left) = name(divider, left)?;
    let edge = None;
    Some((Port { edge, name }, left))
}

/// A port: a name, or one with an edge.
#[inline]
pub fn port(divider: u8, left: Reading<'_>) -> Option<(Port<'_>, Reading<'_>)>
    ensures read { Gives (λ r. (port_of divider r.0, tokens_left r.1)) result (entries.port divider (tokens_left left.entry)) }
    ensures on { IfSome result (λ r. Advances left.entry r.1) }
{
    if begins_open(left) {
        edged_port(divider, left)
    } else {
        plain_port(divider, left)
    }
}

/// `(IOPATH PORT NAME VALUES)`
#[tactic(auto, unfolding(crate::specs::Entries::iopath))]
fn iopath(divider: u8, unit: u64, left: Reading<'_>) -> Option<(Said<'_>, Reading<'_>)>
    requires some { 1 ≤ unit }
    requires most { unit ≤ 100000000 }
    ensures read { Gives (λ r. (kind_of divider r.0, tokens_left r.1)) result (entries.iopath divider unit (tokens_left left.entry)) }
    ensures on { IfSome result (λ r. Advances left.entry r.1) }
{
    let left = opened(b"IOPATH", left)?;
    let (from, left) = port(divider, left)?;
    let (to, left) = name(divider, left)?;
    let (value, left) = values(unit, left)?;
    let left = closing(left)?;
    let said = Said::Delay {
        from: from.name,
        edge: from.edge,
        to,
        value,
    };
    Some((said, left))
}

/// `(COND .. (IOPATH ..))`
#[tactic(auto, unfolding(crate::specs::Entries::conditional))]
fn conditional(divider: u8, unit: u64, left: Reading<'_>) -> Option<(Said<'_>, Reading<'_>)>
    requires some { 1 ≤ unit }
    requires most { unit ≤ 100000000 }
    ensures read { Gives (λ r. (kind_of divider r.0, tokens_left r.1)) result (entries.conditional divider unit (tokens_left left.entry)) }
    ensures on { IfSome result (λ r. Advances left.entry r.1) }
{
    let left = opened(b"COND", left)?;
    let left = before_last(left)?;
    let (said, left) = iopath(divider, unit, left)?;
    let left = closing(left)?;
    Some((said, left))
}

/// `(CONDELSE (IOPATH ..))`
#[tactic(auto, unfolding(crate::specs::Entries::otherwise))]
fn otherwise(divider: u8, unit: u64, left: Reading<'_>) -> Option<(Said<'_>, Reading<'_>)>
    requires some { 1 ≤ unit }
    requires most { unit ≤ 100000000 }
    ensures read { Gives (λ r. (kind_of divider r.0, tokens_left r.1)) result (entries.otherwise divider unit (tokens_left left.entry)) }
    ensures on { IfSome result (λ r. Advances left.entry r.1) }
{
    let left = opened(b"CONDELSE", left)?;
    let (said, left) = iopath(divider, unit, left)?;
    let left = closing(left)?;
    Some((said, left))
}

/// `(INTERCONNECT NAME NAME VALUES)`
#[tactic(auto, unfolding(crate::specs::Entries::interconnect))]
fn interconnect(divider: u8, unit: u64, left: Reading<'_>) -> Option<(Said<'_>, Reading<'_>)>
    requires some { 1 ≤ unit }
    requires most { unit ≤ 100000000 }
    ensures read { Gives (λ r. (kind_of divider r.0, tokens_left r.1)) result (entries.interconnect divider unit (tokens_left left.entry)) }
    ensures on { IfSome result (λ r. Advances left.entry r.1) }
{
    let left = opened(b"INTERCONNECT", left)?;
    let (from, left) = name(divider, left)?;
    let (to, left) = name(divider, left)?;
    let (value, left) = values(unit, left)?;
    let left = closing(left)?;
    Some((Said::Wire { from, to, value }, left))
}

/// An entry of a delay.
#[tactic(auto, unfolding(crate::specs::Entries::delay))]
pub fn delay(divider: u8, unit: u64, left: Reading<'_>) -> Option<(Said<'_>, Reading<'_>)>
    requires some { 1 ≤ unit }
    requires most { unit ≤ 100000000 }
    ensures read { Gives (λ r. (kind_of divider r.0, tokens_left r.1)) result (entries.delay divider unit (tokens_left left.entry)) }
    ensures on { IfSome result (λ r. Advances left.entry r.1) }
{
    if starts(b"IOPATH", left) {
        iopath(divider, unit, left)
    } else if starts(b"COND", left) {
        conditional(divider, unit, left)
    } else if starts(b"CONDELSE", left) {
        otherwise(divider, unit, left)
    } else {
        interconnect(divider, unit, left)
    }
}
