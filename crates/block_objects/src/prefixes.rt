ghost use Rattle.std.specs.Prelude.{◌≡◌, ◌<◌, ◌^◌, length, IsTrue, IfOk};
ghost use Rattle.std.specs.List.{list_any};
ghost use Rattle.block_theory.specs.BlockClocks.{prefix_with, begins_with, prefix as prefix_of};

use bud_base::Text;
use bud_design::Clock;
use std::alloc::{AllocError, Global};

#[tactic(auto, using(crate::proofs::FreeLetters::too_long))]
fn begins_with(front: &[u8], name: &[u8]) -> bool
    ensures value { result ≡ begins_with front.now name.now }
    ensures within { IsTrue result → length front.now < 2 ^ 63 }
{
    match name.get(..front.len()) {
        Some(begin) => begin == front,
        None => false,
    }
}

fn begins_name(front: &[u8], clocks: &[Clock]) -> bool
    ensures value { result ≡ list_any (λ c. begins_with front.now c.name) clocks.now }
    ensures within { IsTrue result → length front.now < 2 ^ 63 }
{
    for clock in clocks {
        if begins_with(front, clock.name.as_slice()) {
            return true;
        }
    }
    false
}

/// `bud_` behind so many letters x.
fn prefix_with(alloc: Global, letters: usize) -> Result<Vec<u8>, AllocError>
    ensures { IfOk result (λ text. text.items ≡ prefix_with letters) }
{
    let mut text = vec![in alloc; b'x'; letters]?;
    text.extend_from_slice(b"bud_")?;
    Ok(text)
}

/// Whether a clock's name begins with `bud_` behind so many letters x.
fn is_taken(alloc: Global, clocks: &[Clock], letters: usize) -> Result<bool, AllocError>
    ensures value { IfOk result (λ taken. taken ≡ list_any (λ c. begins_with (prefix_with letters) c.name) clocks.now) }
    ensures within { IfOk result (λ taken. IsTrue taken → letters < 2 ^ 63) }
{
    let text = prefix_with(alloc, letters)?;
    Ok(begins_name(text.as_slice(), clocks))
}

/// The prefix of virtual clocks' names: `bud_` behind the fewest letters x with which no clock's name begins.
pub fn prefix(alloc: Global, clocks: &[Clock]) -> Result<Text, AllocError>
    ensures { IfOk result (λ text. text ≡ prefix_of clocks.now) }
{
    let mut letters = 0;
    while is_taken(alloc, clocks, letters)? {
        letters += 1;
    }
    Ok(Text::from_vec(prefix_with(alloc, letters)?))
}
