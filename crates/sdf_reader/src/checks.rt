ghost use Rattle.std.specs.Prelude.{◌≡◌, ◌≤◌, IfSome, Option};
ghost use Rattle.std.specs.Option.{option_map};
ghost use Rattle.text_scan.specs.Gives.{Gives};
ghost use Rattle.sdf_lex.specs.Lexemes.{token_of};
ghost use Rattle.sdf_reader.specs.Lefts.{tokens_left, Advances};
ghost use Rattle.sdf_reader.specs.Checks as checks;
ghost use Rattle.sdf_reader.specs.Checks.{is_other_check, effect, no_effect};
ghost use Rattle.sdf_reader.specs.Said.{port_of, kind_of};

use crate::entries::port;
use crate::marks::{closing, is_keyword, opened, opening, starts, token};
use crate::nests::{balanced, before_last, lists};
use crate::said::{Port, Said};
use crate::values::value;
use line_text::Reading;
use sdf_lex::Lexeme;

/// `(COND .. PORT)`
#[inline]
#[tactic(auto, unfolding(crate::specs::Checks::conditional_port))]
fn conditional_port(divider: u8, left: Reading<'_>) -> Option<(Port<'_>, Reading<'_>)>
    ensures read { Gives (λ r. (port_of divider r.0, tokens_left r.1)) result (checks.conditional_port divider (tokens_left left.entry)) }
    ensures on { IfSome result (λ r. Advances left.entry r.1) }
{
    let left = opened(b"COND", left)?;
    let left = before_last(left)?;
    let (port, left) = port(divider, left)?;
    let left = closing(left)?;
    Some((port, left))
}

/// A port of a check.
#[inline]
#[tactic(auto, unfolding(crate::specs::Checks::check_port))]
fn check_port(divider: u8, left: Reading<'_>) -> Option<(Port<'_>, Reading<'_>)>
    ensures read { Gives (λ r. (port_of divider r.0, tokens_left r.1)) result (checks.check_port divider (tokens_left left.entry)) }
    ensures on { IfSome result (λ r. Advances left.entry r.1) }
{
    if starts(b"COND", left) {
        conditional_port(divider, left)
    } else {
        port(divider, left)
    }
}

/// `(SETUP PORT PORT VALUE)`
#[tactic(auto, unfolding(crate::specs::Checks::setup))]
fn setup(divider: u8, unit: u64, left: Reading<'_>) -> Option<(Said<'_>, Reading<'_>)>
    requires some { 1 ≤ unit }
    requires most { unit ≤ 100000000 }
    ensures read { Gives (λ r. (kind_of divider r.0, tokens_left r.1)) result (checks.setup divider unit (tokens_left left.entry)) }
    ensures on { IfSome result (λ r. Advances left.entry r.1) }
{
    let left = opened(b"SETUP", left)?;
    let (pin, left) = check_port(divider, left)?;
    let (clock, left) = check_port(divider, left)?;
    let (value, left) = value(unit, left)?;
    let left = closing(left)?;
    let said = Said::Setup {
        pin: pin.name,
        clock: clock.name,
        edge: clock.edge,
        value,
    };
    Some((said, left))
}

/// `(SETUPHOLD PORT PORT VALUE VALUE ..)`
#[tactic(auto, unfolding(crate::specs::Checks::setup_hold))]
fn setup_hold(divider: u8, unit: u64, left: Reading<'_>) -> Option<(Said<'_>, Reading<'_>)>
    requires some { 1 ≤ unit }
    requires most { unit ≤ 100000000 }
    ensures read { Gives (λ r. (kind_of divider r.0, tokens_left r.1)) result (checks.setup_hold divider unit (tokens_left left.entry)) }
    ensures on { IfSome result (λ r. Advances left.entry r.1) }
{
    let left = opened(b"SETUPHOLD", left)?;
    let (pin, left) = check_port(divider, left)?;
    let (clock, left) = check_port(divider, left)?;
    let (setup, left) = value(unit, left)?;
    let (_hold, left) = value(unit, left)?;
    let left = lists(left)?;
    let left = closing(left)?;
    let said = Said::Setup {
        pin: pin.name,
        clock: clock.name,
        edge: clock.edge,
        value: setup,
    };
    Some((said, left))
}

#[inline]
fn is_other_check(lexeme: Lexeme<'_>) -> bool
    ensures { result ≡ is_other_check (token_of lexeme.entry) }
{
    is_keyword(b"HOLD", lexeme)
        || is_keyword(b"RECOVERY", lexeme)
        || is_keyword(b"REMOVAL", lexeme)
        || is_keyword(b"RECREM", lexeme)
        || is_keyword(b"WIDTH", lexeme)
        || is_keyword(b"PERIOD", lexeme)
        || is_keyword(b"SKEW", lexeme)
        || is_keyword(b"NOCHANGE", lexeme)
}

/// A check that has no effect.
#[tactic(auto, unfolding(crate::specs::Checks::other_check))]
fn other_check(left: Reading<'_>) -> Option<Reading<'_>>
    ensures read { Gives tokens_left result (checks.other_check (tokens_left left.entry)) }
    ensures on { IfSome result (Advances left.entry) }
{
    let left = opening(left)?;
    let (lexeme, left) = token(left)?;
    if is_other_check(lexeme) {
        balanced(left)
    } else {
        None
    }
}

/// An entry of a timing check, and what it says, where it has an effect.
#[tactic(auto, unfolding(crate::specs::Checks::check))]
pub fn check(divider: u8, unit: u64, left: Reading<'_>) -> Option<(Option<Said<'_>>, Reading<'_>)>
    requires some { 1 ≤ unit }
    requires most { unit ≤ 100000000 }
    ensures read { Gives (λ r. (option_map (kind_of divider) r.0, tokens_left r.1)) result (checks.check divider unit (tokens_left left.entry)) }
    ensures on { IfSome result (λ r. Advances left.entry r.1) }
{
    if starts(b"SETUP", left) {
        let (said, left) = setup(divider, unit, left)?;
        return Some((Some(said), left));
    }
    if starts(b"SETUPHOLD", left) {
        let (said, left) = setup_hold(divider, unit, left)?;
        return Some((Some(said), left));
    }
    let left = other_check(left)?;
    Some((None, left))
}
