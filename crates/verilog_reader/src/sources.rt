ghost use Rattle.std.specs.Prelude.{◌≡◌, ◌==◌, ◌+◌, ◌≤◌, length, IfOk, IfSome};
ghost use Rattle.std.specs.List.{prefix_len};
ghost use Rattle.text_scan.specs.Gives.{Gives};
ghost use Rattle.verilog_lex.specs.Fronts.{is_of_line};
ghost use Rattle.verilog_words.specs.Reserved.{is_skipped};
ghost use Rattle.verilog_reader.specs.Left.{with_tokens};
ghost use Rattle.verilog_reader.specs.Sources as sources;
ghost use Rattle.verilog_reader.specs.Answers.{GivesRead};
ghost use Rattle.verilog_reader.specs.Readings.{left_of, IsShorter, IsNoLonger};

use crate::declarations::{maybe_header, next_at};
use crate::items::items;
use crate::left::{first_word, next_word};
use crate::names::id;
use crate::readings::{Reading, Stop};
use crate::trees::{ItemList, Tree};
use crate::words::{is_word, sign, title};
use std::alloc::Global;
use verilog_lex::Kind;

/// A module, as it stands.
#[tactic(auto, unfolding(crate::specs::Sources::tree))]
pub fn tree<'a>(alloc: Global, left: Reading<'a>) -> Result<(Tree, Reading<'a>), Stop>
    ensures read { GivesRead (λ r. (r.0, left_of r.1)) result (sources.tree (left_of left.entry)) }
    ensures on { IfOk result (λ r. IsShorter left.entry r.1) }
{
    let rest = title(left, b"module")?;
    let (named, rest) = id(alloc, rest)?;
    let (header, rest) = maybe_header(alloc, rest)?;
    let rest = sign(rest, b';')?;
    let (items, rest) = items(alloc, rest)?;
    let rest = title(rest, b"endmodule")?;
    let tree = Tree {
        leaf: rest.leaf,
        name: named.name,
        header,
        items: ItemList::from_vec(items),
    };
    Ok((tree, rest))
}

/// What is left behind the next word of this title, where there is one.
fn behind_word<'a>(left: Reading<'a>, expected: &[u8]) -> Option<Reading<'a>>
    ensures read { Gives (λ r. left_of r) result (sources.with_found (left_of left.entry) (sources.behind_word left.entry.text.now expected.now left.entry.tokens.now)) }
    ensures on { IfSome result (IsNoLonger left.entry) }
{
    let mut rest = left;
    while let Some((word, behind)) = first_word(rest) {
        if is_word(word, expected) {
            return Some(behind);
        }
        rest = behind;
    }
    None
}

/// What is left behind a primitive.
#[tactic(auto, unfolding(crate::specs::Sources::primitive))]
pub fn primitive<'a>(left: Reading<'a>) -> Result<Reading<'a>, Stop>
    ensures read { GivesRead (λ r. left_of r) result (sources.primitive (left_of left.entry)) }
    ensures on { IfOk result (IsShorter left.entry) }
{
    let rest = title(left, b"primitive")?;
    match behind_word(rest, b"endprimitive") {
        Some(behind) => Ok(behind),
        None => Err(Stop::Syntax(next_at(left))),
    }
}

/// How many bytes stand before the first line feed.
fn line_length(bytes: &[u8]) -> usize
    ensures first { result ≡ prefix_len is_of_line bytes.now }
    ensures within { result ≤ length bytes.now }
{
    for (i, byte) in bytes.iter().enumerate() {
        if *byte == b'\n' {
            return i;
        }
    }
    bytes.len()
}

/// The offset at which the line ends that the offset stands in.
fn line_end(text: &[u8], at: usize) -> usize
    ensures { result ≡ sources.line_end text.now at }
{
    at + line_length(&text[at.min(text.len())..])
}

/// The tokens from this offset on.
fn from_offset<'a>(left: Reading<'a>, offset: usize) -> Reading<'a>
    ensures read { left_of result ≡ with_tokens (left_of left.entry) (sources.from_offset offset left.entry.tokens.now) }
    ensures on { IsNoLonger left.entry result }
{
    let mut rest = left;
    while let Some((word, behind)) = first_word(rest) {
        if word.at >= offset {
            break;
        }
        rest = behind;
    }
    rest
}

/// From here on modules are leaves, or aren't.
#[inline]
fn marked<'a>(leaf: bool, left: Reading<'a>) -> Reading<'a>
    ensures read { left_of result ≡ sources.marked leaf (left_of left.entry) }
    ensures on { IsNoLonger left.entry result }
{
    Reading {
        text: left.text,
        tokens: left.tokens,
        leaf,
        breach: left.breach,
    }
}

/// Whether it names a directive that is skipped.
#[inline]
#[tactic(auto, unfolding(verilog_words::specs::Reserved::is_skipped))]
fn is_skipped(name: &[u8]) -> bool
    ensures { result ≡ is_skipped name.now }
{
    (name == b"timescale".as_slice())
        | (name == b"default_nettype".as_slice())
        | (name == b"resetall".as_slice())
        | (name == b"unconnected_drive".as_slice())
        | (name == b"nounconnected_drive".as_slice())
}

/// What is left where the directive of this name, whose backtick stands at this offset, has had its effect.
fn directed<'a>(at: usize, name: &[u8], left: Reading<'a>) -> Result<Reading<'a>, Stop>
    ensures read { GivesRead (λ r. left_of r) result (sources.directed at name.now (left_of left.entry)) }
    ensures on { IfOk result (IsNoLonger left.entry) }
{
    if name == b"celldefine".as_slice() {
        return Ok(marked(true, left));
    }
    if name == b"endcelldefine".as_slice() {
        return Ok(marked(false, left));
    }
    if is_skipped(name) {
        return Ok(from_offset(left, line_end(left.text, at)));
    }
    Err(Stop::Syntax(at))
}

/// Whether the second offset is the one behind the first.
#[inline]
fn is_next(first: usize, second: usize) -> bool
    ensures { result ≡ (second == first + 1) }
{
    second > first && second - first == 1
}

/// What is left where a directive has had its effect.
#[tactic(auto, unfolding(crate::specs::Sources::directive))]
pub fn directive<'a>(left: Reading<'a>) -> Result<Reading<'a>, Stop>
    ensures read { GivesRead (λ r. left_of r) result (sources.directive (left_of left.entry)) }
    ensures on { IfOk result (IsShorter left.entry) }
{
    let (tick, rest) = next_word(left)?;
    let (word, rest) = next_word(rest)?;
    match word.kind {
        Kind::Name => {
            if is_next(tick.at, word.at) {
                return directed(tick.at, word.bytes, rest);
            }
        }
        _ => {}
    }
    Err(Stop::Syntax(tick.at))
}
