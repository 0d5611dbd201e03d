ghost use Rattle.std.specs.Prelude.{◌≡◌, ◌^◌, ◌<◌, ◌≤◌, ◌+◌, ◌-◌, ◌∷◌, ◌++◌, [], ℕ, List, length, drop, IfOk, OnOk, OnErr};
ghost use Rattle.std.specs.Char.{is_ascii_graphic};
ghost use Rattle.std.specs.List.{All, prefix_len};
ghost use Rattle.verilog_lex.specs.Progress.{IsKnown};
ghost use Rattle.verilog_lex.specs.Spelling.{StandIn};
ghost use Rattle.verilog_lex.specs.Tokens.{AreTokens, IsRefused, IsTokensAnswer, UnlessMemory, IsSyntax, IsFaultWithin, IsWithin};
ghost use Rattle.verilog_lex.specs.declared.kinds.Token.{Token};

use crate::classes::{Class, run_length};
use crate::fronts::{Front, front_of};
use crate::kinds::{LexFault, Token, TokenList};
use std::alloc::Global;

/// How many printable bytes stand at the front, where it is a backslash; else what is known, or 0. So the bytes behind
/// several backslashes in a row are counted once.
#[inline]
fn printable_front(first: u8, behind: &[u8], known: usize) -> usize
    requires size { length behind.now + 1 < 2 ^ 63 }
    requires known { IsKnown known (first ∷ behind.now) }
    ensures known { IsKnown result (first ∷ behind.now) }
    ensures backslash { first ≡ 92 → result ≡ prefix_len is_ascii_graphic behind.now + 1 }
{
    if first == b'\\' && known == 0 {
        return run_length(Class::Graphic, behind) + 1;
    }
    known
}

/// The tokens of the text, as `tokens` finds them.
fn find_tokens(alloc: Global, text: &[u8]) -> Result<TokenList, LexFault>
    requires { length text.now < 2 ^ 31 }
    ensures answer { IsTokensAnswer text.now result }
    ensures within { IsFaultWithin (length text.now) result }
    ensures size { IfOk result (λ found. length found ≤ length text.now) }
    ensures each { IfOk result (All (IsWithin (length text.now))) }
{
    let mut found = Vec::new(alloc);
    let mut at = 0;
    // How many printable bytes stand at the front; 0 where that isn't known.
    let mut printable = 0;
    while let Some((first, behind)) = text[at..].split_first() {
        printable = printable_front(*first, behind, printable);
        match front_of(*first, behind, printable) {
            Front::Skipped(len) => {
                at += len;
                printable = printable.saturating_sub(len);
            }
            Front::Found(kind, len) => {
                if found.push(Token { kind, at, len }).is_err() {
                    return Err(LexFault::NoMemory);
                }
                at += len;
                printable = printable.saturating_sub(len);
            }
            Front::Refused(len) => return Err(LexFault::Syntax(at + len)),
        }
    }
    Ok(TokenList::from_vec(found))
}

/// The tokens of a Verilog text (IEEE 1364), in the order in which they stand.
///
/// Syntax comes where the text has no tokens, with the offset of the first comment, attribute or string that is
/// unclosed, or of the first byte that no token has. It takes one pass over the text, and memory for the tokens alone.
pub fn tokens(alloc: Global, text: &[u8]) -> Result<TokenList, LexFault>
    requires { length text.now < 2 ^ 31 }
    // What each answer says of the text.
    ensures answer { IsTokensAnswer text.now result }
    // A text with tokens gets these.
    ensures found { (all : List Token) → AreTokens 0 text.now all → UnlessMemory result (result ≡ Ok all) }
    // A text that is refused for what stands at an offset gets this offset.
    ensures refused { (place : ℕ) → IsRefused 0 text.now place → UnlessMemory result (result ≡ Err (LexFault.Syntax place)) }
    // A text without tokens is refused.
    ensures none { ((all : List Token) → AreTokens 0 text.now all → ⊥) → UnlessMemory result (IsSyntax result) }
    // A refusal's offset stands in the text.
    ensures within { IsFaultWithin (length text.now) result }
    // Each token is a piece of the text.
    ensures each { IfOk result (All (IsWithin (length text.now))) }
    // They rise, are spelled as their kinds, and only white space, comments and attributes lie between them.
    ensures stand { IfOk result (StandIn text.now 0) }
    ensures size { IfOk result (λ found. length found ≤ length text.now) }
{
    find_tokens(alloc, text)
}

/// A text has at most one list of tokens, is refused at one place at most, and not both.
pub fn one_list()
    ensures list { (text : List ℕ) (all other : List Token) → AreTokens 0 text all → AreTokens 0 text other → all ≡ other }
    ensures place { (text : List ℕ) (place other : ℕ) → IsRefused 0 text place → IsRefused 0 text other → place ≡ other }
    ensures apart { (text : List ℕ) (all : List Token) (place : ℕ) → AreTokens 0 text all → IsRefused 0 text place → ⊥ }
{}
