ghost use Rattle.std.specs.Prelude.{◌≡◌, ◌∷◌, ◌++◌, [], Ok};
ghost use Rattle.sdc_reader.specs.Answers.{Gives};
ghost use Rattle.sdc_reader.specs.Brackets.{named_object, found_in};
ghost use Rattle.sdc_reader.specs.Words.{names_in};

use crate::faults::SdcFault;
use crate::opened::{Found, NameKind};
use crate::words::{copied, is_bare};
use bud_base::Text;
use bud_syntax::Object;
use std::alloc::Global;
use tcl_words::{Word, next_element};

/// An object of this name.
pub fn named_object(kind: NameKind, name: Text) -> Object
    ensures { result ≡ named_object kind name }
{
    match kind {
        NameKind::Ports => Object::Ports(name),
        NameKind::Pins => Object::Pins(name),
        NameKind::Cells => Object::Cells(name),
        NameKind::Clocks => Object::Clocks(name),
        NameKind::Any => Object::Any(name),
    }
}

/// Adds what the names in a word find.
pub fn find_names(
    alloc: Global,
    kind: NameKind,
    word: &Word,
    found: &mut Vec<Found>,
) -> Result<(), SdcFault>
    ensures { Gives (λ done. found.new.items) result (Ok (found.old.items ++ found_in kind word.now)) }
{
    if is_bare(word.kind) {
        return find_name(alloc, kind, word.at, word.text.as_slice(), found);
    }
    let mut rest = word.text.as_slice();
    while let Some((name, behind)) = next_element(word.kind, rest) {
        find_name(alloc, kind, word.at, name, found)?;
        rest = behind;
    }
    Ok(())
}

/// Adds an object of this name.
fn find_name(
    alloc: Global,
    kind: NameKind,
    at: usize,
    name: &[u8],
    found: &mut Vec<Found>,
) -> Result<(), SdcFault>
    ensures { Gives (λ done. found.new.items) result (Ok (found.old.items ++ record { at = at; object = named_object kind name.now } ∷ [])) }
{
    let object = named_object(kind, copied(alloc, name)?);
    if found.push(Found { at, object }).is_err() {
        return Err(SdcFault::NoMemory);
    }
    Ok(())
}
