ghost use Rattle.std.specs.Prelude.{◌≡◌};
ghost use Rattle.verilog_words.specs.Reserved.{is_of_grammar, is_of_behaviour, is_gate, is_left_out, is_reserved, is_skipped};

/// Whether it is a word of the grammar of modules.
#[tactic(auto, unfolding(crate::specs::Reserved::is_of_grammar))]
fn is_of_grammar(word: &[u8]) -> bool
    ensures { result ≡ is_of_grammar word.now }
{
    (word == b"module".as_slice())
        | (word == b"endmodule".as_slice())
        | (word == b"primitive".as_slice())
        | (word == b"endprimitive".as_slice())
        | (word == b"input".as_slice())
        | (word == b"output".as_slice())
        | (word == b"inout".as_slice())
        | (word == b"wire".as_slice())
        | (word == b"tri".as_slice())
        | (word == b"supply0".as_slice())
        | (word == b"supply1".as_slice())
        | (word == b"assign".as_slice())
}

/// Whether it is a word of behaviour, parameters or timing.
#[tactic(auto, unfolding(crate::specs::Reserved::is_of_behaviour))]
fn is_of_behaviour(word: &[u8]) -> bool
    ensures { result ≡ is_of_behaviour word.now }
{
    (word == b"always".as_slice())
        | (word == b"initial".as_slice())
        | (word == b"parameter".as_slice())
        | (word == b"localparam".as_slice())
        | (word == b"defparam".as_slice())
        | (word == b"generate".as_slice())
        | (word == b"genvar".as_slice())
        | (word == b"function".as_slice())
        | (word == b"task".as_slice())
        | (word == b"specify".as_slice())
        | (word == b"reg".as_slice())
        | (word == b"integer".as_slice())
        | (word == b"signed".as_slice())
}

/// Whether it is a gate.
#[tactic(auto, unfolding(crate::specs::Reserved::is_gate))]
fn is_gate(word: &[u8]) -> bool
    ensures { result ≡ is_gate word.now }
{
    (word == b"and".as_slice())
        | (word == b"nand".as_slice())
        | (word == b"or".as_slice())
        | (word == b"nor".as_slice())
        | (word == b"xor".as_slice())
        | (word == b"xnor".as_slice())
        | (word == b"buf".as_slice())
        | (word == b"not".as_slice())
        | (word == b"bufif0".as_slice())
        | (word == b"bufif1".as_slice())
        | (word == b"notif0".as_slice())
        | (word == b"notif1".as_slice())
        | (word == b"pullup".as_slice())
        | (word == b"pulldown".as_slice())
        | (word == b"tran".as_slice())
}

/// Whether structural Verilog leaves out the word.
pub fn is_left_out(word: &[u8]) -> bool
    ensures { result ≡ is_left_out word.now }
{
    is_of_behaviour(word) || is_gate(word)
}

/// Whether the word, unless escaped, is no identifier: a word of the grammar, or one that is left out.
pub fn is_reserved(word: &[u8]) -> bool
    ensures { result ≡ is_reserved word.now }
{
    is_of_grammar(word) || is_left_out(word)
}

/// Whether it names a directive that is skipped to the end of its line.
#[tactic(auto, unfolding(crate::specs::Reserved::is_skipped))]
pub fn is_skipped(word: &[u8]) -> bool
    ensures { result ≡ is_skipped word.now }
{
    (word == b"timescale".as_slice())
        | (word == b"default_nettype".as_slice())
        | (word == b"resetall".as_slice())
        | (word == b"unconnected_drive".as_slice())
        | (word == b"nounconnected_drive".as_slice())
}
