ghost use Rattle.std.specs.Prelude.{◌≡◌, ◌++◌, ◌∷◌, [], OnOk, IfOk};
ghost use Rattle.std.specs.Str.{bytes_eq};
ghost use Rattle.bud_design.specs.Names.{is_ordinary, printed};
ghost use Rattle.module_nets.specs.Paths.{printed_below};
ghost use Rattle.module_nets.specs.Refusals.{IsMemory};

use crate::faults::ElabFault;
use bud_base::Text;
use std::alloc::Global;

/// Whether a byte is a letter, a digit, `_` or `$`.
#[inline]
fn is_ordinary(byte: u8) -> bool
    ensures { result ≡ is_ordinary byte }
{
    (b'a' <= byte && byte <= b'z')
        || ((b'A' <= byte && byte <= b'Z')
            || ((b'0' <= byte && byte <= b'9') || (byte == b'_' || byte == b'$')))
}

/// Appends a byte.
#[inline]
fn put(into: &mut Vec<u8>, byte: u8) -> Result<(), ElabFault>
    ensures put { OnOk result (into.new.items ≡ into.old.items ++ byte ∷ []) }
    ensures memory { IsMemory result }
{
    match into.push(byte) {
        Ok(()) => Ok(()),
        Err(_) => Err(ElabFault::NoMemory),
    }
}

/// Appends the printed form of an identifier: a backslash before every byte that isn't ordinary.
pub fn put_printed(into: &mut Vec<u8>, name: &[u8]) -> Result<(), ElabFault>
    ensures put { OnOk result (into.new.items ≡ into.old.items ++ printed name.now) }
    ensures memory { IsMemory result }
{
    for byte in name {
        if !is_ordinary(*byte) {
            put(into, b'\\')?;
        }
        put(into, *byte)?;
    }
    Ok(())
}

/// A copy of a name.
fn copied(alloc: Global, name: &[u8]) -> Result<Text, ElabFault>
    ensures copied { IfOk result (λ text. text ≡ name.now) }
    ensures memory { IsMemory result }
{
    match Text::from_slice(alloc, name) {
        Ok(text) => Ok(text),
        Err(_) => Err(ElabFault::NoMemory),
    }
}

/// The printed form of an identifier; one of ordinary bytes alone is copied as it stands.
#[tactic(auto, using(crate::proofs::Bytes::bytes_same))]
pub fn printed(alloc: Global, name: &[u8]) -> Result<Text, ElabFault>
    ensures printed { IfOk result (λ text. text ≡ printed name.now) }
    ensures memory { IsMemory result }
{
    if is_printed_as(name, name) {
        return copied(alloc, name);
    }
    let mut text = Vec::new(alloc);
    put_printed(&mut text, name)?;
    Ok(Text::from_vec(text))
}

/// The printed name of an identifier below a path of printed identifiers.
pub fn printed_below(alloc: Global, path: &[Text], name: &[u8]) -> Result<Text, ElabFault>
    ensures printed { IfOk result (λ text. text ≡ printed_below path.now name.now) }
    ensures memory { IsMemory result }
{
    let mut text = Vec::new(alloc);
    for part in path {
        if text.extend_from_slice(part.as_slice()).is_err() {
            return Err(ElabFault::NoMemory);
        }
        put(&mut text, b'/')?;
    }
    put_printed(&mut text, name)?;
    Ok(Text::from_vec(text))
}

/// Whether a name is the printed form of an identifier.
pub fn is_printed_as(identifier: &[u8], name: &[u8]) -> bool
    ensures { result ≡ bytes_eq (printed identifier.now) name.now }
{
    let mut rest = name;
    for byte in identifier {
        if !is_ordinary(*byte) {
            let Some((b'\\', behind)) = rest.split_first() else {
                return false;
            };
            rest = behind;
        }
        let Some((first, behind)) = rest.split_first() else {
            return false;
        };
        if *first != *byte {
            return false;
        }
        rest = behind;
    }
    rest.is_empty()
}
