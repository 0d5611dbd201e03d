ghost use Rattle.std.specs.Prelude.{◌≡◌, IfOk};
ghost use Rattle.verilog_reader.specs.Left.{begins};
ghost use Rattle.verilog_reader.specs.Links as links;
ghost use Rattle.verilog_reader.specs.Lists.{separated};
ghost use Rattle.verilog_reader.specs.Answers.{GivesRead};
ghost use Rattle.verilog_reader.specs.Readings.{left_of, IsShorter, IsNoLonger};

use crate::joining::expr;
use crate::left::first_word;
use crate::lists::{Part, separated};
use crate::names::id;
use crate::readings::{Reading, Stop};
use crate::trees::Cell;
use crate::words::{begins_sign, is_sign, sign};
use bud_syntax::{Link, LinkList, Pieces};
use std::alloc::Global;

/// Whether a link ends here.
#[inline]
fn ends_link(left: Reading<'_>) -> bool
    ensures { result ≡ begins links.ends_link (left_of left.entry) }
{
    match first_word(left) {
        Some((word, _)) => is_sign(word, b',') || is_sign(word, b')'),
        None => false,
    }
}

/// An expression, or no pieces where there is none.
#[tactic(auto, unfolding(crate::specs::Links::maybe_expr))]
fn maybe_expr<'a>(alloc: Global, left: Reading<'a>) -> Result<(Pieces, Reading<'a>), Stop>
    ensures read { GivesRead (λ r. (r.0, left_of r.1)) result (links.maybe_expr (left_of left.entry)) }
    ensures on { IfOk result (λ r. IsNoLonger left.entry r.1) }
{
    if ends_link(left) {
        return Ok((Pieces::new(alloc), left));
    }
    expr(alloc, left)
}

/// A link by name.
struct NamedLink;

impl Part for NamedLink {
    type Value = Link;

    ghost production = { links.named_link };

    #[tactic(auto, unfolding(crate::specs::Links::named_link))]
    fn read<'a>(alloc: Global, left: Reading<'a>) -> Result<(Link, Reading<'a>), Stop> {
        let rest = sign(left, b'.')?;
        let (port, rest) = id(alloc, rest)?;
        let rest = sign(rest, b'(')?;
        let (pieces, rest) = maybe_expr(alloc, rest)?;
        let rest = sign(rest, b')')?;
        Ok((Link::Named(port.name, pieces), rest))
    }
}

/// A link by order.
struct PlacedLink;

impl Part for PlacedLink {
    type Value = Link;

    ghost production = { links.placed_link };

    #[tactic(auto, unfolding(crate::specs::Links::placed_link))]
    fn read<'a>(alloc: Global, left: Reading<'a>) -> Result<(Link, Reading<'a>), Stop> {
        let (pieces, rest) = maybe_expr(alloc, left)?;
        Ok((Link::Placed(pieces), rest))
    }
}

/// Links by name.
fn named_links<'a>(alloc: Global, left: Reading<'a>) -> Result<(LinkList, Reading<'a>), Stop>
    ensures read { GivesRead (λ r. (r.0, left_of r.1)) result (separated links.named_link (left_of left.entry)) }
    ensures on { IfOk result (λ r. IsNoLonger left.entry r.1) }
{
    let (found, rest) = separated::<NamedLink>(alloc, left)?;
    Ok((LinkList::from_vec(found), rest))
}

/// Links by order.
fn placed_links<'a>(alloc: Global, left: Reading<'a>) -> Result<(LinkList, Reading<'a>), Stop>
    ensures read { GivesRead (λ r. (r.0, left_of r.1)) result (separated links.placed_link (left_of left.entry)) }
    ensures on { IfOk result (λ r. IsNoLonger left.entry r.1) }
{
    let (found, rest) = separated::<PlacedLink>(alloc, left)?;
    Ok((LinkList::from_vec(found), rest))
}

/// The links of an instance: none, by name, or by order.
#[tactic(auto, unfolding(crate::specs::Links::links))]
fn links<'a>(alloc: Global, left: Reading<'a>) -> Result<(LinkList, Reading<'a>), Stop>
    ensures read { GivesRead (λ r. (r.0, left_of r.1)) result (links.links (left_of left.entry)) }
    ensures on { IfOk result (λ r. IsNoLonger left.entry r.1) }
{
    if begins_sign(left, b')') {
        return Ok((LinkList::new(alloc), left));
    }
    if begins_sign(left, b'.') {
        return named_links(alloc, left);
    }
    placed_links(alloc, left)
}

/// An instance, without the name of its module.
pub struct CellPart;

impl Part for CellPart {
    type Value = Cell;

    ghost production = { links.cell };

    #[tactic(auto, unfolding(crate::specs::Links::cell))]
    fn read<'a>(alloc: Global, left: Reading<'a>) -> Result<(Cell, Reading<'a>), Stop> {
        let (named, rest) = id(alloc, left)?;
        let rest = sign(rest, b'(')?;
        let (links, rest) = links(alloc, rest)?;
        let rest = sign(rest, b')')?;
        Ok((
            Cell {
                name: named.name,
                links,
            },
            rest,
        ))
    }
}
