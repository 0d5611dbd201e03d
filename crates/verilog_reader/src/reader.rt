ghost use Rattle.std.specs.Prelude.{◌≡◌, ◌^◌, ◌<◌, ◌≤◌, ℕ, List, length, All, IfOk, Some, None, Ok, Err};
ghost use Rattle.bud_syntax.specs.declared.modules.Module.{Module};
ghost use Rattle.verilog_lex.specs.Tokens.{AreTokens, IsWithin};
ghost use Rattle.verilog_lex.specs.declared.kinds.Token.{Token};
ghost use Rattle.verilog_words.specs.declared.words.Word.{Word};
ghost use Rattle.verilog_reader.specs.Breaches.{Breach};
ghost use Rattle.verilog_reader.specs.Breaches.Breach.{of_port, of_number};
ghost use Rattle.verilog_reader.specs.Netlists.{least_breach, Reads, IsBreached, IsMalformed, IsUnsupported, LeavesOut, IsReadAnswer, IsFaultWithin, UnlessMemory, IsSyntax};
ghost use Rattle.verilog_reader.specs.Readers.{Breaks, Judges, Refuses};
ghost use Rattle.verilog_reader.specs.Sizes.{HasAtMost};

use crate::faults::VerilogFault;
use crate::left::copied;
use crate::netlists::netlist;
use crate::readers::Found;
use crate::readings::Stop;
use crate::trees::Named;
use bud_syntax::Modules;
use std::alloc::Global;
use verilog_lex::{LexFault, Token, tokens};
use verilog_words::first_left_out;

/// The fault for a name, or for the number at this offset where that begins first.
fn first_fault(named: Named, breach: Option<usize>) -> VerilogFault
    ensures { Breaks (least_breach (Some named) breach) result }
{
    let Named { name, at } = named;
    match breach {
        None => VerilogFault::Port(name, at),
        Some(number) => {
            if number < at {
                drop(name);
                VerilogFault::Number(number)
            } else {
                VerilogFault::Port(name, at)
            }
        }
    }
}

/// The modules where there is no breach, else the fault for the least.
fn judged(found: Found) -> Result<Modules, VerilogFault>
    ensures { Judges found result }
{
    let Found {
        modules,
        fault,
        breach,
    } = found;
    match fault {
        None => match breach {
            None => Ok(modules),
            Some(at) => {
                drop(modules);
                Err(VerilogFault::Number(at))
            }
        },
        Some(named) => {
            drop(modules);
            Err(first_fault(named, breach))
        }
    }
}

/// Why tokens that are no netlist are refused: for the first word left out, or else as of another form.
fn refused(alloc: Global, text: &[u8], tokens: &[Token], at: usize) -> VerilogFault
    requires { All (IsWithin (length text.now)) tokens.now }
    ensures { Refuses text.now tokens.now result }
{
    let Some(word) = first_left_out(text, tokens) else {
        return VerilogFault::Syntax(at.min(text.len()));
    };
    match copied(alloc, &text[word.at..word.at + word.len]) {
        Ok(name) => VerilogFault::Unsupported(name, word.at),
        Err(_) => VerilogFault::NoMemory,
    }
}

/// The netlist that the tokens of a text are.
fn read_tokens(alloc: Global, text: &[u8], tokens: &[Token]) -> Result<Modules, VerilogFault>
    requires within { All (IsWithin (length text.now)) tokens.now }
    requires tokens { AreTokens 0 text.now tokens.now }
    requires size { length tokens.now ≤ length text.now }
    ensures answer { IsReadAnswer text.now result }
    ensures size { IfOk result (HasAtMost (length text.now)) }
    ensures within { IsFaultWithin (length text.now) result }
{
    match netlist(alloc, text, tokens) {
        Ok(found) => judged(found),
        Err(Stop::Syntax(at)) => Err(refused(alloc, text, tokens, at)),
        Err(Stop::NoMemory) => Err(VerilogFault::NoMemory),
    }
}

/// Reads a structural netlist (IEEE 1364): modules with ports, nets, continuous assignments and instances.
///
/// A text of another form is refused: as Unsupported with the first word that structural Verilog leaves out, outside
/// cells, primitives and skipped lines, where there is one, else as Syntax. In a text of this form Port comes for a port
/// without a direction, or one that is listed or declared twice, and Number for a number past 1,000,000 in brackets and
/// for a width of 0 or past 65,536; the breach that begins first decides. It takes time linear in the text.
pub fn read_verilog(alloc: Global, text: &[u8]) -> Result<Modules, VerilogFault>
    requires { length text.now < 2 ^ 31 }
    // What each answer says of the text.
    ensures answer { IsReadAnswer text.now result }
    // A netlist is read, with its one value.
    ensures reads { (m : List Module) → Reads text.now m → UnlessMemory result (result ≡ Ok m) }
    // One with a breach is refused for the least.
    ensures port { (name : List ℕ) (at : ℕ) → IsBreached text.now (of_port name at) → UnlessMemory result (result ≡ Err (VerilogFault.Port name at)) }
    ensures number { (at : ℕ) → IsBreached text.now (of_number at) → UnlessMemory result (result ≡ Err (VerilogFault.Number at)) }
    // One of another form is refused for the first word left out, where there is one.
    ensures unsupported { (word : List ℕ) (at : ℕ) → IsUnsupported text.now word at → UnlessMemory result (result ≡ Err (VerilogFault.Unsupported word at)) }
    // Else it is refused as of another form.
    ensures malformed { IsMalformed text.now → ((word : Word) → LeavesOut text.now (Some word) → ⊥) → UnlessMemory result (IsSyntax result) }
    // No list of the value has more elements than the text has bytes.
    ensures size { IfOk result (HasAtMost (length text.now)) }
    ensures within { IsFaultWithin (length text.now) result }
{
    read_text(alloc, text)
}

/// Reads a netlist.
fn read_text(alloc: Global, text: &[u8]) -> Result<Modules, VerilogFault>
    requires { length text.now < 2 ^ 31 }
    ensures answer { IsReadAnswer text.now result }
    ensures size { IfOk result (HasAtMost (length text.now)) }
    ensures within { IsFaultWithin (length text.now) result }
{
    match tokens(alloc, text) {
        Ok(found) => read_tokens(alloc, text, found.as_slice()),
        Err(LexFault::Syntax(at)) => Err(VerilogFault::Syntax(at)),
        Err(LexFault::NoMemory) => Err(VerilogFault::NoMemory),
    }
}

/// A text has at most one value, and at most one least breach, and not both.
pub fn one_value()
    ensures value { (text : List ℕ) (m n : List Module) → Reads text m → Reads text n → m ≡ n }
    ensures breach { (text : List ℕ) (a b : Breach) → IsBreached text a → IsBreached text b → a ≡ b }
    ensures apart { (text : List ℕ) (m : List Module) (breach : Breach) → Reads text m → IsBreached text breach → ⊥ }
{}
