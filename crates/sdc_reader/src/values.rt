ghost use Rattle.std.specs.Prelude.{◌≡◌, ◌++◌, map, Ok, Err, ◌≤◌};
ghost use Rattle.std.specs.Option.{option_map};
ghost use Rattle.sdc_reader.specs.Answers.{Gives};
ghost use Rattle.sdc_reader.specs.Brackets.{found_in, all_of};
ghost use Rattle.sdc_reader.specs.Words.{names_in};
ghost use Rattle.tcl_words.specs.Lists.{elements};
ghost use Rattle.sdc_reader.specs.declared.opened.NameKind.TheVariants.{Any as AnyKind};
ghost use Rattle.sdc_reader.specs.Values.{misplaced_inside, whole, surplus_word, unrefused, as_port, taken, objects, name_in, clock_name, may_name, names_clock, finds_inside, finds_of, named_objects, object_word, group_word, any, one_of, gets_clocks, is_get_clocks, named_one, one_found, clock_found, clock, in_ps, time_word, count_word, clock_name_word, times, two_edges, listed_times, waveform, unit_named, unit_word};

use crate::faults::SdcFault;
use crate::given::{TimeUnit, Waveform};
use crate::lists::find_names;
use crate::numbers::{count, time};
use crate::opened::{Finds, Found, Inside, NameKind, ObjectCommand, Opened};
use crate::words::{copied, is_bare, is_clock_name, refuse};
use bud_base::{Listed, Text};
use bud_syntax::{Object, Objects};
use std::alloc::Global;
use tcl_words::{Word, WordKind, next_element};
use text_scan::Round;

/// Refuses brackets that begin at this offset, where none may stand.
fn refuse_inside<T>(alloc: Global, at: usize, inside: &Inside) -> Result<T, SdcFault>
    ensures { Gives (λ x. x) result (Err (misplaced_inside at inside.now)) }
{
    match inside {
        Inside::Refused(fault) => refuse(alloc, fault),
        Inside::Empty | Inside::Command(_, _, _, _) => Err(SdcFault::Syntax(at)),
    }
}

/// A word that isn't in brackets: its whole text.
#[tactic(auto, unfolding(crate::specs::Values::whole))]
pub fn whole<'a>(alloc: Global, opened: &'a Opened) -> Result<&'a [u8], SdcFault>
    ensures { Gives (λ text. text.now) result (whole opened.now) }
{
    match &opened.inside {
        None => Ok(opened.word.text.as_slice()),
        Some(inside) => refuse_inside(alloc, opened.word.at, inside),
    }
}

/// Refuses a word that is one too many.
pub fn refuse_word<T>(alloc: Global, opened: &Opened) -> Result<T, SdcFault>
    ensures { Gives (λ x. x) result (Err (surplus_word opened.now)) }
{
    match &opened.inside {
        None => Err(SdcFault::Syntax(opened.word.at)),
        Some(inside) => refuse_inside(alloc, opened.word.at, inside),
    }
}

/// Passes on a refusal.
fn unrefused(alloc: Global, refusal: &Option<SdcFault>) -> Result<(), SdcFault>
    ensures { Gives (λ done. done) result (unrefused refusal.now) }
{
    match refusal {
        None => Ok(()),
        Some(fault) => refuse(alloc, fault),
    }
}

/// An object of its own like this one; where `ports`, a bare name is a port.
fn taken(alloc: Global, ports: bool, found: &Found) -> Result<Object, SdcFault>
    ensures { Gives (λ object. object) result (Ok (taken ports found.now)) }
{
    match &found.object {
        Object::Ports(name) => Ok(Object::Ports(copied(alloc, name.as_slice())?)),
        Object::Pins(name) => Ok(Object::Pins(copied(alloc, name.as_slice())?)),
        Object::Cells(name) => Ok(Object::Cells(copied(alloc, name.as_slice())?)),
        Object::Clocks(name) => Ok(Object::Clocks(copied(alloc, name.as_slice())?)),
        Object::Any(name) => {
            let name = copied(alloc, name.as_slice())?;
            if ports {
                Ok(Object::Ports(name))
            } else {
                Ok(Object::Any(name))
            }
        }
        Object::AllInputs => Ok(Object::AllInputs),
        Object::AllOutputs => Ok(Object::AllOutputs),
        Object::AllClocks => Ok(Object::AllClocks),
    }
}

/// All these objects.
fn taken_all(alloc: Global, ports: bool, found: &[Found]) -> Result<Objects, SdcFault>
    ensures { Gives (λ objects. objects) result (Ok (map (taken ports) found.now)) }
{
    let mut objects = Vec::new(alloc);
    for one in found {
        let object = taken(alloc, ports, one)?;
        if objects.push(object).is_err() {
            return Err(SdcFault::NoMemory);
        }
    }
    Ok(Listed::from_vec(objects))
}

/// All objects that were found, unless a word was refused.
#[tactic(auto, unfolding(crate::specs::Values::objects))]
fn objects(alloc: Global, ports: bool, finds: &Finds) -> Result<Objects, SdcFault>
    ensures { Gives (λ objects. objects) result (objects ports finds.now) }
{
    unrefused(alloc, &finds.refusal)?;
    taken_all(alloc, ports, finds.found.as_slice())
}

/// The text that an object's word or list element stands for.
pub fn name_in(object: &Object) -> Option<&[u8]>
    ensures { option_map (λ name. name.now) result ≡ name_in object.now }
{
    match object {
        Object::Ports(name)
        | Object::Pins(name)
        | Object::Cells(name)
        | Object::Clocks(name)
        | Object::Any(name) => Some(name.as_slice()),
        Object::AllInputs | Object::AllOutputs | Object::AllClocks => None,
    }
}

/// Whether the first source may name the clock, where it has to.
fn names_clock(named: bool, found: &[Found]) -> Result<(), SdcFault>
    ensures { Gives (λ done. done) result (names_clock named found.now) }
{
    if named {
        return Ok(());
    }
    let Some(first) = found.first() else {
        return Ok(());
    };
    let Some(name) = name_in(&first.object) else {
        return Ok(());
    };
    if is_clock_name(name) {
        Ok(())
    } else {
        Err(SdcFault::Value(first.at))
    }
}

/// What a word finds that isn't in brackets.
fn word_finds(alloc: Global, word: &Word) -> Result<Finds, SdcFault>
    ensures { Gives (λ finds. finds) result (Ok (all_of (found_in AnyKind word.now))) }
{
    let mut found = Vec::new(alloc);
    find_names(alloc, NameKind::Any, word, &mut found)?;
    Ok(Finds {
        found: Listed::from_vec(found),
        refusal: None,
    })
}

/// The objects, unless the first may not name the clock, where it has to, or a word was refused.
#[tactic(auto, unfolding(crate::specs::Values::named_objects))]
fn named_objects(
    alloc: Global,
    ports: bool,
    named: bool,
    finds: &Finds,
) -> Result<Objects, SdcFault>
    ensures { Gives (λ objects. objects) result (named_objects ports named finds.now) }
{
    names_clock(named, finds.found.as_slice())?;
    objects(alloc, ports, finds)
}

/// A word of objects. Where `ports`, a bare name is a port; unless `named`, the first object names the clock.
#[tactic(auto, unfolding(crate::specs::Values::object_word, crate::specs::Values::finds_of))]
pub fn object_word(
    alloc: Global,
    ports: bool,
    named: bool,
    opened: &Opened,
) -> Result<Objects, SdcFault>
    ensures { Gives (λ objects. objects) result (object_word ports named opened.now) }
{
    match &opened.inside {
        None => {
            let finds = word_finds(alloc, &opened.word)?;
            named_objects(alloc, ports, named, &finds)
        }
        Some(Inside::Empty) => Err(SdcFault::Syntax(opened.word.at)),
        Some(Inside::Refused(fault)) => refuse(alloc, fault),
        Some(Inside::Command(_, _, _, finds)) => named_objects(alloc, ports, named, finds),
    }
}

/// The objects of a through group, at least one.
#[tactic(auto, unfolding(crate::specs::Values::group_word))]
pub fn group_word(alloc: Global, opened: &Opened) -> Result<Objects, SdcFault>
    ensures { Gives (λ objects. objects) result (group_word opened.now) }
{
    let objects = object_word(alloc, false, true, opened)?;
    if objects.is_empty() {
        return Err(SdcFault::Syntax(opened.word.at));
    }
    Ok(objects)
}

/// Any word; in brackets stands an object command.
#[tactic(auto, unfolding(crate::specs::Values::any))]
pub fn any(alloc: Global, opened: &Opened) -> Result<(), SdcFault>
    ensures { Gives (λ done. done) result (any opened.now) }
{
    match &opened.inside {
        None => Ok(()),
        Some(Inside::Empty) => Err(SdcFault::Syntax(opened.word.at)),
        Some(Inside::Refused(fault)) => refuse(alloc, fault),
        Some(Inside::Command(_, _, _, finds)) => unrefused(alloc, &finds.refusal),
    }
}

/// The one name in a word that isn't in brackets.
fn one_name(alloc: Global, word: &Word) -> Result<Text, SdcFault>
    ensures { Gives (λ name. name) result (one_of word.now.at (names_in word.now)) }
{
    if is_bare(word.kind) {
        return copied(alloc, word.text.as_slice());
    }
    let Some((name, rest)) = next_element(word.kind, word.text.as_slice()) else {
        return Err(SdcFault::Syntax(word.at));
    };
    if next_element(word.kind, rest).is_some() {
        return Err(SdcFault::Syntax(word.at));
    }
    copied(alloc, name)
}

fn gets_clocks(kind: NameKind) -> bool
    ensures { result ≡ gets_clocks kind }
{
    match kind {
        NameKind::Clocks => true,
        NameKind::Ports | NameKind::Pins | NameKind::Cells | NameKind::Any => false,
    }
}

fn is_get_clocks(command: ObjectCommand) -> bool
    ensures { result ≡ is_get_clocks command }
{
    match command {
        ObjectCommand::Get(kind) => gets_clocks(kind),
        ObjectCommand::AllInputs
        | ObjectCommand::AllOutputs
        | ObjectCommand::AllClocks
        | ObjectCommand::List => false,
    }
}

/// The one name that was found; `at` is where the word of names begins.
fn one_found(at: usize, found: &[Found]) -> Result<&[u8], SdcFault>
    ensures { Gives (λ name. name.now) result (one_found at found.now) }
{
    let Some((first, rest)) = found.split_first() else {
        return Err(SdcFault::Syntax(at));
    };
    if !rest.is_empty() {
        return Err(SdcFault::Syntax(at));
    }
    match name_in(&first.object) {
        Some(name) => Ok(name),
        None => Err(SdcFault::Syntax(at)),
    }
}

/// The one name that `get_clocks` finds, whose own name begins at `at` and its word of names at `place`.
fn clock_found(
    alloc: Global,
    at: usize,
    place: Option<usize>,
    finds: &Finds,
) -> Result<Text, SdcFault>
    ensures { Gives (λ name. name) result (clock_found at place finds.now) }
{
    match place {
        None => {
            unrefused(alloc, &finds.refusal)?;
            Err(SdcFault::Syntax(at))
        }
        Some(place) => {
            let name = one_found(place, finds.found.as_slice())?;
            unrefused(alloc, &finds.refusal)?;
            copied(alloc, name)
        }
    }
}

/// One name of a clock, or `get_clocks` with one name.
#[tactic(auto, unfolding(crate::specs::Values::clock))]
pub fn clock(alloc: Global, opened: &Opened) -> Result<Text, SdcFault>
    ensures { Gives (λ name. name) result (clock opened.now) }
{
    match &opened.inside {
        None => one_name(alloc, &opened.word),
        Some(Inside::Empty) => Err(SdcFault::Syntax(opened.word.at)),
        Some(Inside::Refused(fault)) => refuse(alloc, fault),
        Some(Inside::Command(command, at, place, finds)) => {
            if is_get_clocks(*command) {
                clock_found(alloc, *at, *place, finds)
            } else {
                Err(SdcFault::Syntax(*at))
            }
        }
    }
}

fn in_ps(unit: TimeUnit) -> u64
    ensures ps { result ≡ in_ps unit }
    ensures some { 1 ≤ result }
    ensures most { result ≤ 1000 }
{
    match unit {
        TimeUnit::Nanoseconds => 1000,
        TimeUnit::Picoseconds => 1,
    }
}

/// A time in the unit.
#[tactic(auto, unfolding(crate::specs::Values::time_word))]
pub fn time_word(
    alloc: Global,
    unit: TimeUnit,
    round: Round,
    opened: &Opened,
) -> Result<i64, SdcFault>
    ensures { Gives (λ n. n) result (time_word unit round opened.now) }
{
    let text = whole(alloc, opened)?;
    time(in_ps(unit), round, opened.word.at, text)
}

/// A count.
#[tactic(auto, unfolding(crate::specs::Values::count_word))]
pub fn count_word(alloc: Global, opened: &Opened) -> Result<u32, SdcFault>
    ensures { Gives (λ n. n) result (count_word opened.now) }
{
    let text = whole(alloc, opened)?;
    count(opened.word.at, text)
}

/// The name of a clock.
#[tactic(auto, unfolding(crate::specs::Values::clock_name_word, crate::specs::Values::clock_name))]
pub fn clock_name_word(alloc: Global, opened: &Opened) -> Result<Text, SdcFault>
    ensures { Gives (λ name. name) result (clock_name_word opened.now) }
{
    let text = whole(alloc, opened)?;
    if is_clock_name(text) {
        copied(alloc, text)
    } else {
        Err(SdcFault::Value(opened.word.at))
    }
}

/// The times of a list, each rounded down.
fn times(
    alloc: Global,
    unit: TimeUnit,
    kind: WordKind,
    at: usize,
    list: &[u8],
) -> Result<Vec<i64>, SdcFault>
    ensures { Gives (λ times. times.items) result (times (in_ps unit) at (elements kind list.now)) }
{
    let unit = in_ps(unit);
    let mut times = Vec::new(alloc);
    let mut rest = list;
    while let Some((element, behind)) = next_element(kind, rest) {
        let edge = time(unit, Round::Down, at, element)?;
        if times.push(edge).is_err() {
            return Err(SdcFault::NoMemory);
        }
        rest = behind;
    }
    Ok(times)
}

fn two_edges(at: usize, times: &[i64]) -> Result<Waveform, SdcFault>
    ensures { Gives (λ waveform. waveform) result (two_edges at times.now) }
{
    match times {
        [rise, fall] => Ok(Waveform {
            rise: *rise,
            fall: *fall,
        }),
        _ => Err(SdcFault::Syntax(at)),
    }
}

/// A list of two times.
#[tactic(auto, unfolding(crate::specs::Values::waveform))]
pub fn waveform(alloc: Global, unit: TimeUnit, opened: &Opened) -> Result<Waveform, SdcFault>
    ensures { Gives (λ waveform. waveform) result (waveform unit opened.now) }
{
    let text = whole(alloc, opened)?;
    if is_bare(opened.word.kind) {
        return Err(SdcFault::Syntax(opened.word.at));
    }
    let edges = times(alloc, unit, opened.word.kind, opened.word.at, text)?;
    two_edges(opened.word.at, edges.as_slice())
}

fn unit_named(name: &[u8]) -> Option<TimeUnit>
    ensures { result ≡ unit_named name.now }
{
    if name == b"ns".as_slice() || name == b"1ns".as_slice() {
        Some(TimeUnit::Nanoseconds)
    } else if name == b"ps".as_slice() || name == b"1ps".as_slice() {
        Some(TimeUnit::Picoseconds)
    } else {
        None
    }
}

/// A unit of times.
#[tactic(auto, unfolding(crate::specs::Values::unit_word))]
pub fn unit_word(alloc: Global, opened: &Opened) -> Result<TimeUnit, SdcFault>
    ensures { Gives (λ unit. unit) result (unit_word opened.now) }
{
    let text = whole(alloc, opened)?;
    match unit_named(text) {
        Some(unit) => Ok(unit),
        None => Err(SdcFault::Syntax(opened.word.at)),
    }
}
