ghost use Rattle.std.specs.Prelude.{◌≡◌, false};
ghost use Rattle.sdc_reader.specs.Answers.{Gives};
ghost use Rattle.sdc_reader.specs.Collecting.{nothing_given, option_word, slot_of, slot_word, value, complete, begun_option, option, collected, collected_all, awaits_word, is_name_option, owns_next, is_named};
ghost use Rattle.sdc_reader.specs.Options.{option_of};

use crate::faults::SdcFault;
use crate::given::{Collected, Given, Setting, Slot};
use crate::opened::Opened;
use crate::options::{CommandKind, SdcOption, Seen, option_of};
use crate::values::{
    any, clock, clock_name_word, count_word, group_word, object_word, refuse_word, time_word,
    unit_word, waveform, whole,
};
use crate::words::{copied, is_option};
use bud_base::Listed;
use std::alloc::Global;
use text_scan::Round;

impl Given {
    /// Nothing yet.
    pub fn new(alloc: Global) -> Given
        ensures { result ≡ nothing_given }
    {
        Given {
            seen: Seen::new(),
            version: false,
            unit: None,
            amount: None,
            count: None,
            name: None,
            period: None,
            waveform: None,
            clock: None,
            objects: None,
            from: None,
            through: Listed::new(alloc),
            to: None,
        }
    }
}

/// Reads the word of an option.
#[tactic(auto, unfolding(crate::specs::Collecting::option_word))]
fn option_word(
    alloc: Global,
    setting: Setting,
    given: Given,
    option: SdcOption,
    opened: &Opened,
) -> Result<Given, SdcFault>
    ensures { Gives (λ more. more) result (option_word setting given option opened.now) }
{
    let mut given = given;
    match option {
        SdcOption::Time => given.unit = Some(unit_word(alloc, opened)?),
        SdcOption::Period => {
            given.period = Some(time_word(alloc, setting.unit, Round::Down, opened)?);
        }
        SdcOption::Name => given.name = Some(clock_name_word(alloc, opened)?),
        SdcOption::Waveform => given.waveform = Some(waveform(alloc, setting.unit, opened)?),
        SdcOption::Clock => given.clock = Some(clock(alloc, opened)?),
        SdcOption::From => given.from = Some(object_word(alloc, false, true, opened)?),
        SdcOption::Through => {
            let group = group_word(alloc, opened)?;
            if given.through.push(group).is_err() {
                return Err(SdcFault::NoMemory);
            }
        }
        SdcOption::To => given.to = Some(object_word(alloc, false, true, opened)?),
        _ => any(alloc, opened)?,
    }
    Ok(given)
}

/// What a word that is no option and belongs to none is to be.
fn slot_of(kind: CommandKind, given: &Given) -> Option<Slot>
    ensures { result ≡ slot_of kind given.now }
{
    match kind {
        CommandKind::Version => (!given.version).then_some(Slot::Version),
        CommandKind::Units | CommandKind::FalsePath => None,
        CommandKind::Design => given.name.is_none().then_some(Slot::Name),
        CommandKind::CreateClock => given.objects.is_none().then_some(Slot::Sources),
        CommandKind::InputDelay | CommandKind::OutputDelay => {
            if given.amount.is_none() {
                Some(Slot::Time(Round::Up))
            } else if given.objects.is_none() {
                Some(Slot::Ports)
            } else {
                None
            }
        }
        CommandKind::Multicycle => given.count.is_none().then_some(Slot::Count),
        CommandKind::MaxDelay => given.amount.is_none().then_some(Slot::Time(Round::Down)),
    }
}

/// Reads a word that is no option and belongs to none.
#[tactic(auto, unfolding(crate::specs::Collecting::value))]
fn value(alloc: Global, setting: Setting, given: Given, opened: &Opened) -> Result<Given, SdcFault>
    ensures { Gives (λ more. more) result (value setting given opened.now) }
{
    let mut given = given;
    match slot_of(setting.kind, &given) {
        None => return refuse_word(alloc, opened),
        Some(Slot::Time(round)) => {
            given.amount = Some(time_word(alloc, setting.unit, round, opened)?);
        }
        Some(Slot::Count) => given.count = Some(count_word(alloc, opened)?),
        Some(Slot::Sources) => {
            given.objects = Some(object_word(alloc, true, setting.named, opened)?);
        }
        Some(Slot::Ports) => given.objects = Some(object_word(alloc, true, true, opened)?),
        Some(Slot::Name) => given.name = Some(copied(alloc, whole(alloc, opened)?)?),
        Some(Slot::Version) => {
            any(alloc, opened)?;
            given.version = true;
        }
    }
    Ok(given)
}

/// Reads a word that is an option.
#[tactic(auto, unfolding(crate::specs::Collecting::option))]
fn begin_option(
    alloc: Global,
    setting: Setting,
    given: Given,
    opened: &Opened,
) -> Result<Collected, SdcFault>
    ensures { Gives (λ more. more) result (option setting given opened.now) }
{
    let Some(option) = option_of(setting.kind, opened.word.text.as_slice()) else {
        let name = copied(alloc, opened.word.text.as_slice())?;
        return Err(SdcFault::UnknownOption(name, opened.word.at));
    };
    if given.seen.has(option) || given.seen.excludes(option) {
        return Err(SdcFault::Syntax(opened.word.at));
    }
    let mut given = given;
    given.seen = given.seen.with_option(option);
    let awaits = option.takes_word().then_some(option);
    Ok(Collected { given, awaits })
}

/// Reads one word more.
#[tactic(auto, unfolding(crate::specs::Collecting::collected))]
fn collect(
    alloc: Global,
    setting: Setting,
    before: Collected,
    opened: &Opened,
) -> Result<Collected, SdcFault>
    ensures { Gives (λ more. more) result (collected setting before opened.now) }
{
    let Collected { given, awaits } = before;
    if let Some(option) = awaits {
        let given = option_word(alloc, setting, given, option, opened)?;
        return Ok(Collected {
            given,
            awaits: None,
        });
    }
    if is_option(&opened.word) {
        return begin_option(alloc, setting, given, opened);
    }
    let given = value(alloc, setting, given, opened)?;
    Ok(Collected {
        given,
        awaits: None,
    })
}

/// Reads all the words.
pub fn collect_all(alloc: Global, setting: Setting, words: &[Opened]) -> Result<Collected, SdcFault>
    ensures { Gives (λ last. last) result (collected_all setting (complete nothing_given) words.now) }
{
    let mut so_far = Collected {
        given: Given::new(alloc),
        awaits: None,
    };
    for opened in words {
        so_far = collect(alloc, setting, so_far, opened)?;
    }
    Ok(so_far)
}

fn awaits_word(option: Option<SdcOption>) -> bool
    ensures { result ≡ awaits_word option }
{
    match option {
        Some(option) => option.takes_word(),
        None => false,
    }
}

/// Whether the word is the option `-name`; `owned` says that it belongs to the option before it.
fn is_name_option(owned: bool, opened: &Opened) -> bool
    ensures { result ≡ is_name_option owned opened.now }
{
    !owned && is_option(&opened.word) && opened.word.text.as_slice() == b"-name".as_slice()
}

/// Whether the word is an option that the next word belongs to.
fn owns_next(kind: CommandKind, owned: bool, opened: &Opened) -> bool
    ensures { result ≡ owns_next kind owned opened.now }
{
    !owned && is_option(&opened.word) && awaits_word(option_of(kind, opened.word.text.as_slice()))
}

/// Whether `-name` stands among the words as an option.
pub fn is_named(kind: CommandKind, words: &[Opened]) -> bool
    ensures { result ≡ is_named kind false words.now }
{
    let mut owned = false;
    for opened in words {
        if is_name_option(owned, opened) {
            return true;
        }
        owned = owns_next(kind, owned, opened);
    }
    false
}
