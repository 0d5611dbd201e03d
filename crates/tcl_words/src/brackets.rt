ghost use Rattle.std.specs.Prelude.{◌≡◌, ◌≤◌, ◌<◌, ℕ, List, length, MatchOption, IfSome};
ghost use Rattle.text_scan.specs.Gives.{Gives};
ghost use Rattle.tcl_words.specs.Scanning.{left, next_part, AreClosed};
ghost use Rattle.tcl_words.specs.declared.characters.Character.{Character as Sign};

use crate::characters::{Character, Scope, next_character};
use crate::ends::{ends_word, gap_end, simple_end};

/// What stands in brackets.
#[derive(Clone, Copy)]
pub enum Part {
    /// A bracket that opens.
    Opens,
    /// A bracket that closes.
    Closes,
    /// A word that isn't in brackets.
    Whole,
}

/// The next bracket or word in brackets, and the offset behind it; None where neither stands there.
#[tactic(auto, unfolding(crate::specs::Scanning::next_part))]
fn next_part(text: &[u8], at: usize) -> Option<(Part, usize)>
    requires { at ≤ length text.now }
    ensures first { Gives (λ r. (r.0, left text.now r.1)) result (next_part (left text.now at)) }
    ensures order { IfSome result (λ r. (at < r.1) × (r.1 ≤ length text.now)) }
{
    let start = gap_end(text, at, Scope::Brackets);
    let (first, behind) = next_character(text, start)?;
    match first {
        Character::Plain(b'[') => Some((Part::Opens, behind)),
        Character::Plain(b']') => Some((Part::Closes, behind)),
        _ => {
            let end = simple_end(text, start, Scope::Brackets)?;
            Some((Part::Whole, end))
        }
    }
}

/// The offset behind the bracket that closes a word whose bracket opens before `at`; None where there is none.
pub fn bracket_end(text: &[u8], at: usize) -> Option<usize>
    requires { at ≤ length text.now }
    ensures closed { MatchOption result ((rest : List Sign) → AreClosed 0 (left text.now at) rest → ⊥) (λ end. AreClosed 0 (left text.now at) (left text.now end)) }
    ensures order { IfSome result (λ end. (at < end) × (end ≤ length text.now)) }
{
    let mut depth: usize = 0;
    let mut end = at;
    while let Some((part, behind)) = next_part(text, end) {
        match part {
            Part::Opens => depth += 1,
            Part::Closes => {
                if depth == 0 {
                    return Some(behind);
                }
                if !ends_word(text, behind, Scope::Brackets) {
                    return None;
                }
                depth -= 1;
            }
            Part::Whole => {}
        }
        end = behind;
    }
    None
}
