ghost use Rattle.std.specs.Prelude.{◌≡◌, codes, IfOk};
ghost use Rattle.std.specs.List.{list_all};
ghost use Rattle.verilog_reader.specs.Left.{begins, with_tokens};
ghost use Rattle.verilog_reader.specs.Items as items;
ghost use Rattle.verilog_reader.specs.Answers.{GivesRead};
ghost use Rattle.verilog_reader.specs.Readings.{left_of, word_seen, IsShorter, IsNoLonger};

use crate::declarations::{begins_dir, declared, names, next_at};
use crate::joining::expr;
use crate::left::{first_word, next_word};
use crate::links::CellPart;
use crate::lists::{Part, separated};
use crate::names::id;
use crate::numbers::maybe_range;
use crate::readings::{Reading, Stop};
use crate::spellings::Spelling;
use crate::trees::{CellList, Item};
use crate::words::{begins_word, is_word, sign, title};
use bud_syntax::{Assign, Assigns, Piece};
use std::alloc::Global;

/// Declarations of ports.
#[tactic(auto, unfolding(crate::specs::Items::ports_item))]
fn ports_item<'a>(alloc: Global, left: Reading<'a>) -> Result<(Item, Reading<'a>), Stop>
    ensures read { GivesRead (λ r. (r.0, left_of r.1)) result (items.ports_item (left_of left.entry)) }
    ensures on { IfOk result (λ r. IsShorter left.entry r.1) }
{
    let (declared, rest) = declared(left)?;
    let (names, rest) = names(alloc, rest)?;
    let rest = sign(rest, b';')?;
    Ok((Item::Ports(declared, names), rest))
}

/// Whether a declaration of nets that begins with the word makes constant ones.
#[inline]
fn net_kind_of(word: Spelling<'_>) -> Option<bool>
    ensures { result ≡ items.net_kind_of (word_seen word.entry) }
{
    if is_word(word, b"wire") {
        Some(false)
    } else if is_word(word, b"tri") {
        Some(false)
    } else if is_word(word, b"supply0") {
        Some(true)
    } else if is_word(word, b"supply1") {
        Some(true)
    } else {
        None
    }
}

/// Whether a declaration of nets begins here.
#[inline]
fn begins_nets(left: Reading<'_>) -> bool
    ensures { result ≡ begins items.is_net_kind (left_of left.entry) }
{
    match first_word(left) {
        Some((word, _)) => net_kind_of(word).is_some(),
        None => false,
    }
}

/// Which nets a declaration makes.
#[tactic(auto, unfolding(crate::specs::Items::net_kind))]
fn net_kind<'a>(left: Reading<'a>) -> Result<(bool, Reading<'a>), Stop>
    ensures read { GivesRead (λ r. (r.0, left_of r.1)) result (items.net_kind (left_of left.entry)) }
    ensures on { IfOk result (λ r. IsShorter left.entry r.1) }
{
    let (word, rest) = next_word(left)?;
    match net_kind_of(word) {
        Some(constant) => Ok((constant, rest)),
        None => Err(Stop::Syntax(word.at)),
    }
}

/// Declarations of nets.
#[tactic(auto, unfolding(crate::specs::Items::nets_item))]
fn nets_item<'a>(alloc: Global, left: Reading<'a>) -> Result<(Item, Reading<'a>), Stop>
    ensures read { GivesRead (λ r. (r.0, left_of r.1)) result (items.nets_item (left_of left.entry)) }
    ensures on { IfOk result (λ r. IsShorter left.entry r.1) }
{
    let (constant, rest) = net_kind(left)?;
    let (range, rest) = maybe_range(rest)?;
    let (names, rest) = names(alloc, rest)?;
    let rest = sign(rest, b';')?;
    Ok((Item::Nets(constant, range, names), rest))
}

/// Whether no piece is a constant.
fn are_of_nets(pieces: &[Piece]) -> bool
    ensures { result ≡ list_all items.is_of_nets pieces.now }
{
    for piece in pieces {
        match piece {
            Piece::Const(_) => return false,
            _ => {}
        }
    }
    true
}

/// One assignment.
struct AssignPart;

impl Part for AssignPart {
    type Value = Assign;

    ghost production = { items.assign };

    #[tactic(auto, unfolding(crate::specs::Items::assign))]
    fn read<'a>(alloc: Global, left: Reading<'a>) -> Result<(Assign, Reading<'a>), Stop> {
        let (target, rest) = expr(alloc, left)?;
        let rest = sign(rest, b'=')?;
        let (source, rest) = expr(alloc, rest)?;
        if !are_of_nets(target.as_slice()) {
            return Err(Stop::Syntax(next_at(left)));
        }
        Ok((
            Assign {
                left: target,
                right: source,
            },
            rest,
        ))
    }
}

/// Assignments.
#[tactic(auto, unfolding(crate::specs::Items::assigns_item))]
fn assigns_item<'a>(alloc: Global, left: Reading<'a>) -> Result<(Item, Reading<'a>), Stop>
    ensures read { GivesRead (λ r. (r.0, left_of r.1)) result (items.assigns_item (left_of left.entry)) }
    ensures on { IfOk result (λ r. IsShorter left.entry r.1) }
{
    let rest = title(left, b"assign")?;
    let (assigns, rest) = separated::<AssignPart>(alloc, rest)?;
    let rest = sign(rest, b';')?;
    Ok((Item::Assigns(Assigns::from_vec(assigns)), rest))
}

/// Instances of one module.
#[tactic(auto, unfolding(crate::specs::Items::cells_item))]
fn cells_item<'a>(alloc: Global, left: Reading<'a>) -> Result<(Item, Reading<'a>), Stop>
    ensures read { GivesRead (λ r. (r.0, left_of r.1)) result (items.cells_item (left_of left.entry)) }
    ensures on { IfOk result (λ r. IsShorter left.entry r.1) }
{
    let (module, rest) = id(alloc, left)?;
    let (cells, rest) = separated::<CellPart>(alloc, rest)?;
    let rest = sign(rest, b';')?;
    Ok((Item::Cells(module.name, CellList::from_vec(cells)), rest))
}

/// An item of a plain module.
#[tactic(auto, unfolding(crate::specs::Items::item))]
fn item<'a>(alloc: Global, left: Reading<'a>) -> Result<(Item, Reading<'a>), Stop>
    ensures read { GivesRead (λ r. (r.0, left_of r.1)) result (items.item (left_of left.entry)) }
    ensures on { IfOk result (λ r. IsShorter left.entry r.1) }
{
    if begins_dir(left) {
        return ports_item(alloc, left);
    }
    if begins_nets(left) {
        return nets_item(alloc, left);
    }
    if begins_word(left, b"assign") {
        return assigns_item(alloc, left);
    }
    cells_item(alloc, left)
}

/// What is left behind the next word of this title, or from "endmodule" on where that comes before it.
fn behind_block<'a>(left: Reading<'a>, title: &[u8]) -> Reading<'a>
    ensures read { left_of result ≡ with_tokens (left_of left.entry) (items.behind_block left.entry.text.now title.now left.entry.tokens.now) }
    ensures on { IsNoLonger left.entry result }
{
    let mut rest = left;
    while let Some((word, behind)) = first_word(rest) {
        if is_word(word, title) {
            return behind;
        }
        if is_word(word, b"endmodule") {
            break;
        }
        rest = behind;
    }
    rest
}

/// What is left behind the block that this word opens, where it opens one.
fn behind_opened<'a>(word: Spelling<'_>, left: Reading<'a>) -> Reading<'a>
    ensures read { left_of result ≡ with_tokens (left_of left.entry) (items.behind_opened left.entry.text.now (word_seen word.entry) left.entry.tokens.now) }
    ensures on { IsNoLonger left.entry result }
{
    if is_word(word, b"function") {
        return behind_block(left, b"endfunction");
    }
    if is_word(word, b"task") {
        return behind_block(left, b"endtask");
    }
    left
}

/// What has no effect in a leaf: a word, and the block that it opens.
#[tactic(auto, unfolding(crate::specs::Items::skipped))]
fn skipped<'a>(left: Reading<'a>) -> Result<(Item, Reading<'a>), Stop>
    ensures read { GivesRead (λ r. (r.0, left_of r.1)) result (items.skipped (left_of left.entry)) }
    ensures on { IfOk result (λ r. IsShorter left.entry r.1) }
{
    let (word, rest) = next_word(left)?;
    Ok((Item::Skipped, behind_opened(word, rest)))
}

/// An item of a leaf.
#[tactic(auto, unfolding(crate::specs::Items::leaf_item))]
fn leaf_item<'a>(alloc: Global, left: Reading<'a>) -> Result<(Item, Reading<'a>), Stop>
    ensures read { GivesRead (λ r. (r.0, left_of r.1)) result (items.leaf_item (left_of left.entry)) }
    ensures on { IfOk result (λ r. IsShorter left.entry r.1) }
{
    if begins_dir(left) {
        return ports_item(alloc, left);
    }
    skipped(left)
}

/// An item of a module.
#[tactic(auto, unfolding(crate::specs::Items::body_item))]
fn body_item<'a>(alloc: Global, left: Reading<'a>) -> Result<(Item, Reading<'a>), Stop>
    ensures read { GivesRead (λ r. (r.0, left_of r.1)) result (items.body_item (left_of left.entry)) }
    ensures on { IfOk result (λ r. IsShorter left.entry r.1) }
{
    if left.leaf {
        return leaf_item(alloc, left);
    }
    item(alloc, left)
}

/// The items of a module, up to "endmodule".
pub fn items<'a>(alloc: Global, left: Reading<'a>) -> Result<(Vec<Item>, Reading<'a>), Stop>
    ensures read { GivesRead (λ r. (r.0.items, left_of r.1)) result (items.items (left_of left.entry)) }
    ensures on { IfOk result (λ r. IsNoLonger left.entry r.1) }
{
    let mut found = Vec::new(alloc);
    let mut rest = left;
    while !begins_word(rest, b"endmodule") {
        let (item, behind) = body_item(alloc, rest)?;
        if found.push(item).is_err() {
            return Err(Stop::NoMemory);
        }
        rest = behind;
    }
    Ok((found, rest))
}
