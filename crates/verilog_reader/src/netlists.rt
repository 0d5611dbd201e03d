ghost use Rattle.std.specs.Prelude.{◌≡◌, ◌∷◌, [], ◌++◌, ℕ, List, None, IfOk, OnOk, codes};
ghost use Rattle.std.specs.Str.{byte};
ghost use Rattle.verilog_reader.specs.Netlists as netlists;
ghost use Rattle.verilog_reader.specs.Modules.{earlier};
ghost use Rattle.verilog_reader.specs.Answers.{GivesRead, IsMemory};
ghost use Rattle.verilog_reader.specs.Readers.{takes_second, breach_of};
ghost use Rattle.verilog_reader.specs.Readings.{left_of, IsShorter};

use crate::moves::assembled;
use crate::readers::Found;
use crate::readings::{Reading, Stop};
use crate::sources::{directive, primitive, tree};
use crate::trees::{Assembled, Named};
use crate::words::{begins_sign, begins_word};
use bud_syntax::{Module, Modules};
use std::alloc::Global;
use verilog_lex::Token;

/// A directive, which has no value.
#[tactic(auto, unfolding(crate::specs::Netlists::marks))]
fn marks<'a>(left: Reading<'a>) -> Result<(Option<Assembled>, Reading<'a>), Stop>
    ensures read { GivesRead (λ r. (r.0, left_of r.1)) result (netlists.marks (left_of left.entry)) }
    ensures on { IfOk result (λ r. IsShorter left.entry r.1) }
{
    let rest = directive(left)?;
    Ok((None, rest))
}

/// A primitive, which has no value.
#[tactic(auto, unfolding(crate::specs::Netlists::passed))]
fn passed<'a>(left: Reading<'a>) -> Result<(Option<Assembled>, Reading<'a>), Stop>
    ensures read { GivesRead (λ r. (r.0, left_of r.1)) result (netlists.passed (left_of left.entry)) }
    ensures on { IfOk result (λ r. IsShorter left.entry r.1) }
{
    let rest = primitive(left)?;
    Ok((None, rest))
}

/// A module.
#[tactic(auto, unfolding(crate::specs::Netlists::made))]
fn made<'a>(alloc: Global, left: Reading<'a>) -> Result<(Option<Assembled>, Reading<'a>), Stop>
    ensures read { GivesRead (λ r. (r.0, left_of r.1)) result (netlists.made (left_of left.entry)) }
    ensures on { IfOk result (λ r. IsShorter left.entry r.1) }
{
    let (tree, rest) = tree(alloc, left)?;
    let found = assembled(alloc, tree)?;
    Ok((Some(found), rest))
}

/// What stands in a file: a directive, a primitive or a module.
#[tactic(auto, unfolding(crate::specs::Netlists::part))]
fn part<'a>(alloc: Global, left: Reading<'a>) -> Result<(Option<Assembled>, Reading<'a>), Stop>
    ensures read { GivesRead (λ r. (r.0, left_of r.1)) result (netlists.part (left_of left.entry)) }
    ensures on { IfOk result (λ r. IsShorter left.entry r.1) }
{
    if begins_sign(left, b'`') {
        return marks(left);
    }
    if begins_word(left, b"primitive") {
        return passed(left);
    }
    made(alloc, left)
}

/// Whether the second begins before the first, or there is no first.
#[inline]
fn takes_second(first: &Option<Named>, second: &Option<Named>) -> bool
    ensures { result ≡ takes_second first.now second.now }
{
    match (first, second) {
        (None, _) => true,
        (_, None) => false,
        (Some(a), Some(b)) => b.at < a.at,
    }
}

/// The one that begins first.
fn earliest_of(first: Option<Named>, second: Option<Named>) -> Option<Named>
    ensures { result ≡ earlier first second }
{
    if takes_second(&first, &second) {
        drop(first);
        second
    } else {
        drop(second);
        first
    }
}

/// Adds a module, where there is one; the fault so far that begins first.
fn add_made(
    modules: &mut Vec<Module>,
    fault: Option<Named>,
    found: Assembled,
) -> Result<Option<Named>, Stop>
    ensures modules { OnOk result (modules.new.items ≡ modules.old.items ++ found.«module» ∷ []) }
    ensures fault { IfOk result (λ r. r ≡ earlier fault found.fault) }
    ensures stop { IsMemory result }
{
    let Assembled { module, fault: own } = found;
    if modules.push(module).is_err() {
        return Err(Stop::NoMemory);
    }
    Ok(earliest_of(fault, own))
}

/// Adds what has a value of a part; the fault so far that begins first.
fn add_part(
    modules: &mut Vec<Module>,
    fault: Option<Named>,
    part: Option<Assembled>,
) -> Result<Option<Named>, Stop>
    ensures modules { OnOk result (modules.new.items ≡ modules.old.items ++ netlists.modules_of (part ∷ [])) }
    ensures fault { IfOk result (λ r. r ≡ earlier fault (netlists.fault_of (part ∷ []))) }
    ensures stop { IsMemory result }
{
    match part {
        None => Ok(fault),
        Some(found) => add_made(modules, fault, found),
    }
}

/// Whether no token is left.
#[inline]
fn is_over(tokens: &[Token]) -> bool
    ensures { result ≡ netlists.is_over tokens.now }
{
    match tokens.split_first() {
        Some(_) => false,
        None => true,
    }
}

/// The netlist that the tokens are in the loose form.
#[tactic(auto, unfolding(crate::specs::Netlists::netlist))]
pub fn netlist(alloc: Global, text: &[u8], tokens: &[Token]) -> Result<Found, Stop>
    ensures { GivesRead (λ found. (found.modules, breach_of found)) result (netlists.netlist text.now tokens.now) }
{
    let mut modules = Vec::new(alloc);
    let mut fault = None;
    let mut rest = Reading {
        text,
        tokens,
        leaf: false,
        breach: None,
    };
    while !is_over(rest.tokens) {
        let (found, behind) = part(alloc, rest)?;
        fault = add_part(&mut modules, fault, found)?;
        rest = behind;
    }
    Ok(Found {
        modules: Modules::from_vec(modules),
        fault,
        breach: rest.breach,
    })
}
