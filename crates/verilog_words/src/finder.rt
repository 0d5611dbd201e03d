ghost use Rattle.std.specs.Prelude.{◌≡◌, ◌+◌, ◌<◌, ◌≤◌, ◌^◌, ℕ, List, length, Option};
ghost use Rattle.std.specs.List.{All};
ghost use Rattle.std.specs.Option.{ForSome};
ghost use Rattle.verilog_lex.specs.Tokens.{IsWithin};
ghost use Rattle.verilog_lex.specs.declared.kinds.Token.{Token};
ghost use Rattle.verilog_words.specs.LeftOut.{is_mark, IsFirstLeftOut, IsWordWithin};
ghost use Rattle.verilog_words.specs.Neighbours.{word_by};
ghost use Rattle.verilog_words.specs.declared.words.Word.{Word};

use crate::neighbours::Before;
use crate::regions::{Turn, directive, turn_at};
use crate::words::Word;
use verilog_lex::Token;

/// Whether the directive is neither left out nor skipped.
fn is_mark(name: &[u8]) -> bool
    ensures { result ≡ is_mark name.now }
{
    name == b"celldefine".as_slice() || name == b"endcelldefine".as_slice()
}

/// The word left out that begins at the token, at which a directive of this name begins, if one does.
fn word_at(text: &[u8], before: Before, token: Token, name: Option<Token>) -> Option<Word>
    requires token { IsWithin (length text.now) token }
    requires name { ForSome name (λ n. (token.at + 1 ≡ n.at) × IsWithin (length text.now) n) }
    ensures word { result ≡ word_by text.now before token name }
    ensures within { ForSome result (IsWordWithin (length text.now)) }
{
    match name {
        Some(name) => {
            if is_mark(name.bytes(text)) {
                return None;
            }
            Some(Word {
                at: token.at,
                len: name.len + 1,
            })
        }
        None => {
            if before.leaves_out(text, token) {
                return Some(Word {
                    at: token.at,
                    len: token.len,
                });
            }
            None
        }
    }
}

/// The first word of a text with these tokens that structural Verilog leaves out, outside leaves, primitives and skipped
/// lines, or None where there is none. A leaf goes from a `module` under `` `celldefine `` to the next `endmodule`.
///
/// Left out are all directives but `` `celldefine ``, `` `endcelldefine `` and those that are skipped to the end of their
/// line, the words that `is_left_out` names, `#`, `[` directly behind two identifiers, and `.` in a module's header. It
/// takes one pass over the tokens, and no memory.
pub fn first_left_out(text: &[u8], tokens: &[Token]) -> Option<Word>
    requires { All (IsWithin (length text.now)) tokens.now }
    ensures first { IsFirstLeftOut text.now tokens.now result }
    ensures within { ForSome result (IsWordWithin (length text.now)) }
{
    let mut rest = tokens;
    let mut leaves = false;
    let mut before = Before::none();
    while let Some((token, behind)) = rest.split_first() {
        let name = directive(text, *token, behind);
        match turn_at(text, leaves, *token, behind, name) {
            Turn::Passes(left) => rest = left,
            Turn::Keeps(now) => {
                if let Some(word) = word_at(text, before, *token, name) {
                    return Some(word);
                }
                before = before.with(text, *token);
                leaves = now;
                rest = behind;
            }
        }
    }
    None
}

/// What is first left out of tokens is determined.
pub fn one_first()
    ensures { (text : List ℕ) (tokens : List Token) (word other : Option Word) →
        IsFirstLeftOut text tokens word → IsFirstLeftOut text tokens other → word ≡ other }
{}
