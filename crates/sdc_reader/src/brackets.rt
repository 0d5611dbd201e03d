ghost use Rattle.std.specs.Prelude.{◌≡◌, ◌+◌, ◌*◌, ◌<◌, ◌≤◌, ◌^◌, ◌∷◌, ◌++◌, List, [], length, reverse, Ok, IfOk, true};
ghost use Rattle.tcl_words.specs.Commands.{AreBracketWords};
ghost use Rattle.tcl_words.specs.declared.words.Word.{Word as Item};
ghost use Rattle.sdc_reader.specs.Answers.{Gives};
ghost use Rattle.sdc_reader.specs.Words.{is_bracket, is_option};
ghost use Rattle.sdc_reader.specs.Brackets.{Forest, Opens, object_command, unknown_option, unknown_command, refused, bracket_name, misplaced, surplus, got, all_found, found_in, listed, inside_of, opened, names_place, words_place, obeyed};
ghost use Rattle.sdc_reader.specs.Rooms.{HasRoom, HaveRoom, weight, weights, IsHead, HasRest, IsRest, IsOpenedFirst, simple, IsTurn, found_then};

use crate::faults::SdcFault;
use crate::lists::find_names;
use crate::opened::{Finds, Found, Inside, NameKind, ObjectCommand, Opened};
use crate::words::{copied, is_bracket, is_option};
use bud_base::Listed;
use bud_syntax::Object;
use std::alloc::Global;
use tcl_words::{Command, TclFault, Word, bracket_words};

/// The object command of this name.
fn object_command(name: &[u8]) -> Option<ObjectCommand>
    ensures { result ≡ object_command name.now }
{
    if name == b"get_ports".as_slice() {
        Some(ObjectCommand::Get(NameKind::Ports))
    } else if name == b"get_pins".as_slice() {
        Some(ObjectCommand::Get(NameKind::Pins))
    } else if name == b"get_cells".as_slice() {
        Some(ObjectCommand::Get(NameKind::Cells))
    } else if name == b"get_clocks".as_slice() {
        Some(ObjectCommand::Get(NameKind::Clocks))
    } else if name == b"all_inputs".as_slice() {
        Some(ObjectCommand::AllInputs)
    } else if name == b"all_outputs".as_slice() {
        Some(ObjectCommand::AllOutputs)
    } else if name == b"all_clocks".as_slice() {
        Some(ObjectCommand::AllClocks)
    } else if name == b"list".as_slice() {
        Some(ObjectCommand::List)
    } else {
        None
    }
}

/// The words in a word's brackets.
fn inner_words(alloc: Global, word: &Word) -> Result<Vec<Word>, SdcFault>
    requires { word.now.at + 2 * length word.now.text < 2 ^ 62 }
    ensures words { (inner : List Item) → AreBracketWords (word.now.at + 1) word.now.text inner → Gives (λ words. words.items) result (Ok inner) }
    ensures room { IfOk result (λ words. HaveRoom words.items) }
    ensures weight { IfOk result (λ words. weights words.items ≤ length word.now.text) }
{
    match bracket_words(alloc, word.text.as_slice(), word.at + 1) {
        Ok(words) => Ok(words.into_vec()),
        Err(TclFault::Syntax(at)) => Err(SdcFault::Syntax(at)),
        Err(TclFault::NoMemory) => Err(SdcFault::NoMemory),
    }
}

fn unknown_option(alloc: Global, word: &Word) -> Result<SdcFault, SdcFault>
    ensures { Gives (λ fault. fault) result (Ok (unknown_option word.now)) }
{
    Ok(SdcFault::UnknownOption(copied(alloc, word.text.as_slice())?, word.at))
}

fn unknown_command(alloc: Global, word: &Word) -> Result<SdcFault, SdcFault>
    ensures { Gives (λ fault. fault) result (Ok (unknown_command word.now)) }
{
    Ok(SdcFault::UnknownCommand(copied(alloc, word.text.as_slice())?, word.at))
}

/// How brackets begin.
#[derive(Drop)]
pub enum Head {
    /// No words.
    Nothing,
    /// No object command.
    Misnamed(SdcFault),
    /// An object command, where its name begins, and the words behind it.
    Named(ObjectCommand, usize, Listed<Word>),
}

/// Brackets stand where the name of an object command should.
fn bracket_name(alloc: Global, word: &Word) -> Result<SdcFault, SdcFault>
    requires { word.now.at + 2 * length word.now.text < 2 ^ 62 }
    ensures { (inner : List Item) (inside : Forest) → AreBracketWords (word.now.at + 1) word.now.text inner → Opens inner inside →
        Gives (λ fault. fault) result (Ok (bracket_name word.now inside)) }
{
    let inner = inner_words(alloc, word)?;
    match inner.first() {
        None => Ok(SdcFault::Syntax(word.at)),
        Some(_) => unknown_command(alloc, word),
    }
}

/// Brackets stand where none may.
fn misplaced(alloc: Global, word: &Word) -> Result<SdcFault, SdcFault>
    requires { word.now.at + 2 * length word.now.text < 2 ^ 62 }
    ensures { (inner : List Item) (inside : Forest) → AreBracketWords (word.now.at + 1) word.now.text inner → Opens inner inside →
        Gives (λ fault. fault) result (Ok (misplaced word.now inside)) }
{
    let inner = inner_words(alloc, word)?;
    let Some((first, _)) = inner.as_slice().split_first() else {
        return Ok(SdcFault::Syntax(word.at));
    };
    if is_bracket(first.kind) {
        return bracket_name(alloc, first);
    }
    match object_command(first.text.as_slice()) {
        Some(_) => Ok(SdcFault::Syntax(word.at)),
        None => unknown_command(alloc, first),
    }
}

/// The refusal of a word where none may stand any more, if there is one.
fn surplus(alloc: Global, words: &[Word]) -> Result<Option<SdcFault>, SdcFault>
    requires { HaveRoom words.now }
    ensures { (f : Forest) → Opens words.now f → Gives (λ refusal. refusal) result (Ok (surplus f)) }
{
    let Some((word, _)) = words.split_first() else {
        return Ok(None);
    };
    if is_bracket(word.kind) {
        return Ok(Some(misplaced(alloc, word)?));
    }
    if is_option(word) {
        return Ok(Some(unknown_option(alloc, word)?));
    }
    Ok(Some(SdcFault::Syntax(word.at)))
}

/// Nothing but a refusal.
fn refused(alloc: Global, fault: SdcFault) -> Finds
    ensures { result ≡ refused fault }
{
    Finds {
        found: Listed::new(alloc),
        refusal: Some(fault),
    }
}

/// What `get_ports` and the like find.
fn got(alloc: Global, kind: NameKind, at: usize, words: &[Word]) -> Result<Finds, SdcFault>
    requires { HaveRoom words.now }
    ensures { (f : Forest) → Opens words.now f → Gives (λ finds. finds) result (Ok (got kind at f)) }
{
    let Some((word, rest)) = words.split_first() else {
        return Ok(refused(alloc, SdcFault::Syntax(at)));
    };
    if is_bracket(word.kind) {
        return Ok(refused(alloc, misplaced(alloc, word)?));
    }
    if is_option(word) {
        return Ok(refused(alloc, unknown_option(alloc, word)?));
    }
    let mut found = Vec::new(alloc);
    find_names(alloc, kind, word, &mut found)?;
    let refusal = surplus(alloc, rest)?;
    Ok(Finds {
        found: Listed::from_vec(found),
        refusal,
    })
}

/// Where the word of names begins.
fn names_place(words: &[Word]) -> Option<usize>
    ensures { (f : Forest) → Opens words.now f → result ≡ names_place f }
{
    let (word, _) = words.split_first()?;
    if is_bracket(word.kind) || is_option(word) {
        return None;
    }
    Some(word.at)
}

/// What an object command without words finds.
fn all_found(alloc: Global, at: usize, object: Object, words: &[Word]) -> Result<Finds, SdcFault>
    requires { HaveRoom words.now }
    ensures { (f : Forest) → Opens words.now f → Gives (λ finds. finds) result (Ok (all_found at object f)) }
{
    let mut found = Vec::new(alloc);
    if found.push(Found { at, object }).is_err() {
        return Err(SdcFault::NoMemory);
    }
    let refusal = surplus(alloc, words)?;
    Ok(Finds {
        found: Listed::from_vec(found),
        refusal,
    })
}

/// How brackets begin that hold these words.
fn beginning(alloc: Global, words: Vec<Word>) -> Result<Head, SdcFault>
    requires { HaveRoom words.items }
    ensures head { (f : Forest) → Opens words.items f → IsHead f result }
    ensures rest { HasRest (weights words.items) result }
{
    let mut words = words;
    if words.is_empty() {
        return Ok(Head::Nothing);
    }
    let first = words.remove(0);
    if is_bracket(first.kind) {
        return Ok(Head::Misnamed(bracket_name(alloc, &first)?));
    }
    match object_command(first.text.as_slice()) {
        None => Ok(Head::Misnamed(unknown_command(alloc, &first)?)),
        Some(command) => Ok(Head::Named(command, first.at, Listed::from_vec(words))),
    }
}

/// What an object command but `list` finds.
fn simple_finds(
    alloc: Global,
    command: ObjectCommand,
    at: usize,
    words: &[Word],
) -> Result<Option<Finds>, SdcFault>
    requires { HaveRoom words.now }
    ensures { (f : Forest) → Opens words.now f → Gives (λ finds. finds) result (Ok (simple command at f)) }
{
    match command {
        ObjectCommand::Get(kind) => Ok(Some(got(alloc, kind, at, words)?)),
        ObjectCommand::AllInputs => Ok(Some(all_found(alloc, at, Object::AllInputs, words)?)),
        ObjectCommand::AllOutputs => Ok(Some(all_found(alloc, at, Object::AllOutputs, words)?)),
        ObjectCommand::AllClocks => Ok(Some(all_found(alloc, at, Object::AllClocks, words)?)),
        ObjectCommand::List => Ok(None),
    }
}

/// Puts the words before those that are pending, the first of which stands last.
fn put_before(pending: &mut Vec<Word>, words: Vec<Word>) -> Result<(), SdcFault>
    ensures { Gives (λ done. pending.new.items) result (Ok (pending.old.items ++ reverse words.items)) }
{
    let mut words = words;
    while let Some(word) = words.pop() {
        if pending.push(word).is_err() {
            return Err(SdcFault::NoMemory);
        }
    }
    Ok(())
}

/// Adds what was found.
fn add_found(found: &mut Vec<Found>, more: Listed<Found>) -> Result<(), SdcFault>
    ensures { Gives (λ done. found.new.items) result (Ok (found.old.items ++ more)) }
{
    let mut more = more.into_vec();
    if found.append(&mut more).is_err() {
        return Err(SdcFault::NoMemory);
    }
    Ok(())
}

/// Reads brackets in a list: a refusal, or None where the list goes on with the words that are pending.
fn list_brackets(
    alloc: Global,
    word: &Word,
    found: &mut Vec<Found>,
    pending: &mut Vec<Word>,
) -> Result<Option<SdcFault>, SdcFault>
    requires bracket { is_bracket word.now.kind ≡ true }
    requires room { word.now.at + 2 * length word.now.text < 2 ^ 62 }
    ensures turn { (f : Forest) → Opens (word.now ∷ reverse pending.old.items) f → IsTurn found.old.items found.new.items (reverse pending.new.items) (listed f) result }
    ensures left { IsRest (weight word.now) pending.old.items pending.new.items result }
{
    let inner = inner_words(alloc, word)?;
    match beginning(alloc, inner)? {
        Head::Nothing => Ok(Some(SdcFault::Syntax(word.at))),
        Head::Misnamed(fault) => Ok(Some(fault)),
        Head::Named(command, at, words) => {
            match simple_finds(alloc, command, at, words.as_slice())? {
                Some(
                    Finds {
                        found: more,
                        refusal,
                    },
                ) => {
                    add_found(found, more)?;
                    Ok(refusal)
                }
                None => {
                    put_before(pending, words.into_vec())?;
                    Ok(None)
                }
            }
        }
    }
}

/// Reads a word of a list: a refusal, or None where the list goes on with the words that are pending.
fn list_word(
    alloc: Global,
    word: &Word,
    found: &mut Vec<Found>,
    pending: &mut Vec<Word>,
) -> Result<Option<SdcFault>, SdcFault>
    requires { HasRoom word.now }
    ensures turn { (f : Forest) → Opens (word.now ∷ reverse pending.old.items) f → IsTurn found.old.items found.new.items (reverse pending.new.items) (listed f) result }
    ensures left { IsRest (weight word.now) pending.old.items pending.new.items result }
{
    if is_bracket(word.kind) {
        return list_brackets(alloc, word, found, pending);
    }
    if is_option(word) {
        return Ok(Some(unknown_option(alloc, word)?));
    }
    find_names(alloc, NameKind::Any, word, found)?;
    Ok(None)
}

/// What the words behind `list` find.
fn listed(alloc: Global, words: Vec<Word>) -> Result<Finds, SdcFault>
    requires { HaveRoom words.items }
    ensures { (f : Forest) → Opens words.items f → Gives (λ finds. finds) result (Ok (listed f)) }
{
    let mut pending = words;
    pending.reverse();
    let mut found = Vec::new(alloc);
    while let Some(word) = pending.pop() {
        let refusal = list_word(alloc, &word, &mut found, &mut pending)?;
        if refusal.is_some() {
            return Ok(Finds {
                found: Listed::from_vec(found),
                refusal,
            });
        }
    }
    Ok(Finds {
        found: Listed::from_vec(found),
        refusal: None,
    })
}

/// Where the word of names begins, of `get_ports` and the like.
fn words_place(command: ObjectCommand, words: &[Word]) -> Option<usize>
    ensures { (f : Forest) → Opens words.now f → result ≡ words_place command f }
{
    match command {
        ObjectCommand::Get(_) => names_place(words),
        ObjectCommand::AllInputs
        | ObjectCommand::AllOutputs
        | ObjectCommand::AllClocks
        | ObjectCommand::List => None,
    }
}

/// What an object command finds.
fn obeyed(
    alloc: Global,
    command: ObjectCommand,
    at: usize,
    words: Vec<Word>,
) -> Result<Finds, SdcFault>
    requires { HaveRoom words.items }
    ensures { (f : Forest) → Opens words.items f → Gives (λ finds. finds) result (Ok (obeyed command at f (listed f))) }
{
    match simple_finds(alloc, command, at, words.as_slice())? {
        Some(finds) => Ok(finds),
        None => listed(alloc, words),
    }
}

/// What stands in brackets that hold these words.
fn inside_of(alloc: Global, words: Vec<Word>) -> Result<Inside, SdcFault>
    requires { HaveRoom words.items }
    ensures { (f : Forest) → Opens words.items f → Gives (λ inside. inside) result (Ok (inside_of f)) }
{
    match beginning(alloc, words)? {
        Head::Nothing => Ok(Inside::Empty),
        Head::Misnamed(fault) => Ok(Inside::Refused(fault)),
        Head::Named(command, at, words) => {
            let place = words_place(command, words.as_slice());
            let finds = obeyed(alloc, command, at, words.into_vec())?;
            Ok(Inside::Command(command, at, place, finds))
        }
    }
}

/// A word, with what stands in its brackets.
fn open(alloc: Global, word: Word) -> Result<Opened, SdcFault>
    requires { HasRoom word }
    ensures { (words : List Item) (f : Forest) → Opens (word ∷ words) f → (opened : Forest) × (Opens words opened × IsOpenedFirst word f opened result) }
{
    if !is_bracket(word.kind) {
        return Ok(Opened { word, inside: None });
    }
    let inner = inner_words(alloc, &word)?;
    let inside = inside_of(alloc, inner)?;
    Ok(Opened {
        word,
        inside: Some(inside),
    })
}

/// The words of a command, each with what stands in its brackets.
pub fn open_all(alloc: Global, words: Command) -> Result<Vec<Opened>, SdcFault>
    requires { HaveRoom words }
    ensures { (f : Forest) → Opens words f → Gives (λ opened. opened.items) result (Ok (opened f)) }
{
    let mut pending = words.into_vec();
    pending.reverse();
    let mut done = Vec::new(alloc);
    while let Some(word) = pending.pop() {
        let opened = open(alloc, word)?;
        if done.push(opened).is_err() {
            return Err(SdcFault::NoMemory);
        }
    }
    Ok(done)
}
