ghost use Rattle.std.specs.Prelude.{◌≡◌, ◌++◌, ◌≤◌, ◌<◌, ◌^◌, ◌+◌, ◌-◌, length, map, reverse, replicate, Some, None, All, OnOk};
ghost use Rattle.std.specs.List.{range_with_len};
ghost use Rattle.module_nets.specs.Nets.{expression_bits, numbers_between, or_open, piece_bits, pieces_of_link};
ghost use Rattle.net_drivers.specs.Links.{linked_pieces};
ghost use Rattle.net_drivers.specs.Slots.{IsBelow};
ghost use Rattle.net_drivers.specs.Appending.{Appends, IsFine, constant_width};

use crate::links::pieces_of;
use bud_syntax::{Link, Piece, Port};
use module_nets::{NetTable, Span, range_width};
use std::alloc::AllocError;

/// Appends bits that are none.
fn put_none(into: &mut Vec<Option<u32>>, count: usize) -> Result<(), AllocError>
    ensures { OnOk result (into.new.items ≡ into.old.items ++ replicate count None) }
{
    for _bit in 0..count {
        into.push(None)?;
    }
    Ok(())
}

/// Appends the numbers from one to in front of another.
fn put_rising(into: &mut Vec<Option<u32>>, first: usize, end: usize) -> Result<(), AllocError>
    requires order { first ≤ end }
    requires small { end ≤ 2 ^ 32 }
    ensures { OnOk result (into.new.items ≡ into.old.items ++ map Some (range_with_len first (end - first))) }
{
    for n in first..end {
        into.push(Some(n as u32))?;
    }
    Ok(())
}

/// Appends the numbers in front of one down to another.
fn put_falling(into: &mut Vec<Option<u32>>, end: usize, last: usize) -> Result<(), AllocError>
    requires order { last ≤ end }
    requires small { end ≤ 2 ^ 32 }
    ensures { OnOk result (into.new.items ≡ into.old.items ++ map Some (reverse (range_with_len last (end - last)))) }
{
    let mut n = end;
    while n > last {
        n -= 1;
        into.push(Some(n as u32))?;
    }
    Ok(())
}

/// Appends the numbers from the first to the last of a span.
fn put_span(into: &mut Vec<Option<u32>>, span: Span) -> Result<(), AllocError>
    requires first { span.first < 2 ^ 32 }
    requires last { span.last < 2 ^ 32 }
    ensures { OnOk result (into.new.items ≡ into.old.items ++ map Some (numbers_between span.first span.last)) }
{
    if span.first <= span.last {
        put_rising(into, span.first, span.last + 1)
    } else {
        put_falling(into, span.first + 1, span.last)
    }
}

/// How many bits a constant has; 0 for other pieces.
fn constant_width(piece: &Piece) -> usize
    ensures { result ≡ constant_width piece.now }
{
    match piece {
        Piece::Const(width) => *width as usize,
        Piece::Net(_) => 0,
        Piece::Bit(_, _) => 0,
        Piece::Part(_, _, _) => 0,
    }
}

/// Appends the numbers of the bits of a piece, which may be the one of this number.
fn put_piece(
    table: &NetTable<'_>,
    piece: &Piece,
    number: usize,
    into: &mut Vec<Option<u32>>,
) -> Result<(), AllocError>
    requires small { table.now.bits ≤ 8388608 }
    requires fine { IsFine table.now.module.now piece.now }
    ensures { OnOk result (Appends table.now.module.now (piece_bits table.now.module.now piece.now) into.old.items into.new.items) }
{
    match table.span(piece, number) {
        Some(span) => put_span(into, span),
        None => put_none(into, constant_width(piece)),
    }
}

/// Appends the numbers of the bits of an expression, its pieces being numbered from `first` on.
pub fn put_pieces(
    table: &NetTable<'_>,
    pieces: &[Piece],
    first: usize,
    into: &mut Vec<Option<u32>>,
) -> Result<(), AllocError>
    requires small { table.now.bits ≤ 8388608 }
    requires fine { All (IsFine table.now.module.now) pieces.now }
    ensures { OnOk result (Appends table.now.module.now (expression_bits table.now.module.now pieces.now) into.old.items into.new.items) }
{
    for (k, piece) in pieces.iter().enumerate() {
        put_piece(table, piece, first.saturating_add(k), into)?;
    }
    Ok(())
}

/// Appends the numbers of the bits that are joined to a port, the pieces being numbered from `first` on.
pub fn put_port(
    table: &NetTable<'_>,
    port: &Port,
    pieces: &[Piece],
    first: usize,
    into: &mut Vec<Option<u32>>,
) -> Result<(), AllocError>
    requires small { table.now.bits ≤ 8388608 }
    requires fine { All (IsFine table.now.module.now) pieces.now }
    ensures { OnOk result (Appends table.now.module.now (or_open port.now.range (expression_bits table.now.module.now pieces.now)) into.old.items into.new.items) }
{
    let before = into.len();
    put_pieces(table, pieces, first, into)?;
    if into.len() != before {
        return Ok(());
    }
    put_none(into, range_width(port.range))
}

/// Appends the numbers of the bits that the link of a number joins to a port, at the instance of a number.
pub fn put_link(
    table: &NetTable<'_>,
    port: &Port,
    links: &[Link],
    number: Option<usize>,
    instance: usize,
    into: &mut Vec<Option<u32>>,
) -> Result<(), AllocError>
    requires small { table.now.bits ≤ 8388608 }
    requires fine { All (λ l. All (IsFine table.now.module.now) (pieces_of_link l)) links.now }
    requires number { IsBelow (length links.now) number }
    ensures { OnOk result (Appends table.now.module.now (or_open port.now.range (expression_bits table.now.module.now (linked_pieces links.now number))) into.old.items into.new.items) }
{
    match number {
        None => put_none(into, range_width(port.range)),
        Some(number) => {
            let first = table.piece(instance, number);
            put_port(table, port, pieces_of(&links[number]), first, into)
        }
    }
}
