ghost use Rattle.std.specs.Prelude.{◌≡◌, IfOk, is_none};
ghost use Rattle.std.specs.List.{list_all};
ghost use Rattle.verilog_reader.specs.Left.{begins};
ghost use Rattle.verilog_reader.specs.Declarations as declarations;
ghost use Rattle.verilog_reader.specs.Names as names;
ghost use Rattle.verilog_reader.specs.Lists.{separated};
ghost use Rattle.verilog_reader.specs.Answers.{GivesRead};
ghost use Rattle.verilog_reader.specs.Readings.{left_of, word_seen, IsShorter, IsNoLonger};

use crate::left::{first_word, next_word};
use crate::lists::{Part, separated};
use crate::names::id;
use crate::numbers::maybe_range;
use crate::readings::{Reading, Stop};
use crate::spellings::Spelling;
use crate::trees::{Declared, Header, HeaderPort, Named, Names};
use crate::words::{begins_sign, is_word, sign};
use bud_syntax::Dir;
use std::alloc::Global;

/// The direction that the word names.
#[inline]
fn dir_of(word: Spelling<'_>) -> Option<Dir>
    ensures { result ≡ declarations.dir_of (word_seen word.entry) }
{
    if is_word(word, b"input") {
        Some(Dir::Input)
    } else if is_word(word, b"output") {
        Some(Dir::Output)
    } else if is_word(word, b"inout") {
        Some(Dir::Inout)
    } else {
        None
    }
}

/// Whether a declaration of a port begins here.
#[inline]
pub fn begins_dir(left: Reading<'_>) -> bool
    ensures { result ≡ begins declarations.is_dir (left_of left.entry) }
{
    match first_word(left) {
        Some((word, _)) => dir_of(word).is_some(),
        None => false,
    }
}

/// A direction.
#[tactic(auto, unfolding(crate::specs::Declarations::dir))]
fn dir<'a>(left: Reading<'a>) -> Result<(Dir, Reading<'a>), Stop>
    ensures read { GivesRead (λ r. (r.0, left_of r.1)) result (declarations.dir (left_of left.entry)) }
    ensures on { IfOk result (λ r. IsShorter left.entry r.1) }
{
    let (word, rest) = next_word(left)?;
    match dir_of(word) {
        Some(found) => Ok((found, rest)),
        None => Err(Stop::Syntax(word.at)),
    }
}

/// Whether the word is the type of a port's net.
#[inline]
fn is_net_type(leaf: bool, word: Spelling<'_>) -> bool
    ensures { result ≡ declarations.is_net_type leaf (word_seen word.entry) }
{
    is_word(word, b"wire") || leaf && is_word(word, b"reg")
}

/// What is left behind the type of a port's net, where there is one.
#[inline]
fn behind_net_type<'a>(left: Reading<'a>) -> Reading<'a>
    ensures read { left_of result ≡ declarations.behind_net_type (left_of left.entry) }
    ensures on { IsNoLonger left.entry result }
{
    match first_word(left) {
        Some((word, rest)) => {
            if is_net_type(left.leaf, word) {
                rest
            } else {
                left
            }
        }
        None => left,
    }
}

/// A direction and a range, without names.
#[tactic(auto, unfolding(crate::specs::Declarations::declared))]
pub fn declared<'a>(left: Reading<'a>) -> Result<(Declared, Reading<'a>), Stop>
    ensures read { GivesRead (λ r. (r.0, left_of r.1)) result (declarations.declared (left_of left.entry)) }
    ensures on { IfOk result (λ r. IsShorter left.entry r.1) }
{
    let (dir, rest) = dir(left)?;
    let (range, rest) = maybe_range(behind_net_type(rest))?;
    Ok((Declared { dir, range }, rest))
}

/// An identifier in a list.
pub struct NamePart;

impl Part for NamePart {
    type Value = Named;

    ghost production = { names.id };

    fn read<'a>(alloc: Global, left: Reading<'a>) -> Result<(Named, Reading<'a>), Stop> {
        id(alloc, left)
    }
}

/// Identifiers with commas between.
pub fn names<'a>(alloc: Global, left: Reading<'a>) -> Result<(Names, Reading<'a>), Stop>
    ensures read { GivesRead (λ r. (r.0, left_of r.1)) result (separated names.id (left_of left.entry)) }
    ensures on { IfOk result (λ r. IsNoLonger left.entry r.1) }
{
    let (found, rest) = separated::<NamePart>(alloc, left)?;
    Ok((Names::from_vec(found), rest))
}

/// A port of a header with its declaration.
#[tactic(auto, unfolding(crate::specs::Declarations::declared_port))]
fn declared_port<'a>(alloc: Global, left: Reading<'a>) -> Result<(HeaderPort, Reading<'a>), Stop>
    ensures read { GivesRead (λ r. (r.0, left_of r.1)) result (declarations.declared_port (left_of left.entry)) }
    ensures on { IfOk result (λ r. IsShorter left.entry r.1) }
{
    let (declared, rest) = declared(left)?;
    let (named, rest) = id(alloc, rest)?;
    Ok((
        HeaderPort {
            named,
            declared: Some(declared),
        },
        rest,
    ))
}

/// A port of a header without a declaration.
#[tactic(auto, unfolding(crate::specs::Declarations::listed_port))]
fn listed_port<'a>(alloc: Global, left: Reading<'a>) -> Result<(HeaderPort, Reading<'a>), Stop>
    ensures read { GivesRead (λ r. (r.0, left_of r.1)) result (declarations.listed_port (left_of left.entry)) }
    ensures on { IfOk result (λ r. IsShorter left.entry r.1) }
{
    let (named, rest) = id(alloc, left)?;
    Ok((
        HeaderPort {
            named,
            declared: None,
        },
        rest,
    ))
}

/// A port of a header.
struct PortPart;

impl Part for PortPart {
    type Value = HeaderPort;

    ghost production = { declarations.port };

    #[tactic(auto, unfolding(crate::specs::Declarations::port))]
    fn read<'a>(alloc: Global, left: Reading<'a>) -> Result<(HeaderPort, Reading<'a>), Stop> {
        if begins_dir(left) {
            return declared_port(alloc, left);
        }
        listed_port(alloc, left)
    }
}

/// Whether no port has a declaration.
fn are_listed(ports: &[HeaderPort]) -> bool
    ensures { result ≡ list_all (λ p. is_none p.declared) ports.now }
{
    for port in ports {
        if port.declared.is_some() {
            return false;
        }
    }
    true
}

/// Whether the first port has a declaration, or no port has one.
fn begin_declared(ports: &[HeaderPort]) -> bool
    ensures { result ≡ declarations.begin_declared ports.now }
{
    match ports.split_first() {
        Some((first, others)) => first.declared.is_some() || are_listed(others),
        None => true,
    }
}

/// The ports of a header, at least one.
#[tactic(auto, unfolding(crate::specs::Declarations::ports))]
fn ports<'a>(alloc: Global, left: Reading<'a>) -> Result<(Header, Reading<'a>), Stop>
    ensures read { GivesRead (λ r. (r.0, left_of r.1)) result (declarations.ports (left_of left.entry)) }
    ensures on { IfOk result (λ r. IsNoLonger left.entry r.1) }
{
    let (found, rest) = separated::<PortPart>(alloc, left)?;
    if !begin_declared(found.as_slice()) {
        return Err(Stop::Syntax(next_at(left)));
    }
    Ok((Header::from_vec(found), rest))
}

/// The offset of the next word.
#[inline]
pub fn next_at(left: Reading<'_>) -> usize {
    match first_word(left) {
        Some((word, _)) => word.at,
        None => left.text.len(),
    }
}

/// The ports of a header, or none where it closes.
#[tactic(auto, unfolding(crate::specs::Declarations::maybe_ports))]
fn maybe_ports<'a>(alloc: Global, left: Reading<'a>) -> Result<(Header, Reading<'a>), Stop>
    ensures read { GivesRead (λ r. (r.0, left_of r.1)) result (declarations.maybe_ports (left_of left.entry)) }
    ensures on { IfOk result (λ r. IsNoLonger left.entry r.1) }
{
    if begins_sign(left, b')') {
        return Ok((Header::new(alloc), left));
    }
    ports(alloc, left)
}

/// The ports of a header, in parentheses.
#[tactic(auto, unfolding(crate::specs::Declarations::header))]
fn header<'a>(alloc: Global, left: Reading<'a>) -> Result<(Header, Reading<'a>), Stop>
    ensures read { GivesRead (λ r. (r.0, left_of r.1)) result (declarations.header (left_of left.entry)) }
    ensures on { IfOk result (λ r. IsNoLonger left.entry r.1) }
{
    let rest = sign(left, b'(')?;
    let (ports, rest) = maybe_ports(alloc, rest)?;
    let rest = sign(rest, b')')?;
    Ok((ports, rest))
}

/// The ports of a header, or none where it has no parentheses.
#[tactic(auto, unfolding(crate::specs::Declarations::maybe_header))]
pub fn maybe_header<'a>(alloc: Global, left: Reading<'a>) -> Result<(Header, Reading<'a>), Stop>
    ensures read { GivesRead (λ r. (r.0, left_of r.1)) result (declarations.maybe_header (left_of left.entry)) }
    ensures on { IfOk result (λ r. IsNoLonger left.entry r.1) }
{
    if begins_sign(left, b'(') {
        return header(alloc, left);
    }
    Ok((Header::new(alloc), left))
}
