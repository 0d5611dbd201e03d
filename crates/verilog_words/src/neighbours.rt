ghost use Rattle.std.specs.Prelude.{◌≡◌, ◌+◌, ◌<◌, ◌≤◌, ◌^◌, ℕ, List, [], length};
ghost use Rattle.verilog_lex.specs.Tokens.{IsWithin};
ghost use Rattle.verilog_words.specs.LeftOut.{begins_base, may_be_digits};
ghost use Rattle.verilog_words.specs.Neighbours.{kept, base_by, of_constant_by, identifier_by, title_by, header_by, kept_by, left_out_by};

use crate::regions::is_plain;
use crate::reserved::is_left_out;
use verilog_lex::Token;

/// What is kept of the tokens before one that stand outside leaves, primitives and skipped lines.
#[derive(Clone, Copy)]
pub struct Before {
    /// The nearest is a backtick.
    backtick: bool,
    /// The nearest is a `'`.
    quote: bool,
    /// Where the nearest ends.
    end: usize,
    /// The nearest is the base or digits of a constant.
    of_constant: bool,
    /// The nearest is a base without digits.
    bare_base: bool,
    /// The nearest is an identifier.
    one: bool,
    /// The two nearest are.
    two: bool,
    /// The nearest is `module`.
    module_word: bool,
    /// The two nearest are `module` and a name.
    title: bool,
    /// What is next stands between a module header's `(` and the next `)`.
    header: bool,
}

fn begins_base(bytes: &[u8]) -> bool
    ensures { result ≡ begins_base bytes.now }
{
    match bytes.first() {
        Some(byte) => matches!(*byte, b'b' | b'B' | b'o' | b'O' | b'd' | b'D' | b'h' | b'H'),
        None => false,
    }
}

fn may_be_digits(text: &[u8], token: Token) -> bool
    requires { token.at + token.len ≤ length text.now }
    ensures { result ≡ may_be_digits text.now token }
{
    token.is_name() || token.is_number() || token.is_sign(text, b'?')
}

impl Before {
    /// What is kept of no tokens.
    pub fn none() -> Before
        ensures { (text : List ℕ) → result ≡ kept text [] }
    {
        Before {
            backtick: false,
            quote: false,
            end: 0,
            of_constant: false,
            bare_base: false,
            one: false,
            two: false,
            module_word: false,
            title: false,
            header: false,
        }
    }

    fn is_base(self, text: &[u8], token: Token) -> bool
        requires { token.at + token.len ≤ length text.now }
        ensures { result ≡ base_by text.now self token }
    {
        self.quote && token.is_name() && begins_base(token.bytes(text))
    }

    fn is_of_constant(self, text: &[u8], token: Token) -> bool
        requires { token.at + token.len ≤ length text.now }
        ensures { result ≡ of_constant_by text.now self token }
    {
        self.is_base(text, token)
            || (self.of_constant
                && may_be_digits(text, token)
                && (self.bare_base || self.end == token.at))
    }

    fn is_identifier(self, text: &[u8], token: Token) -> bool
        requires { token.at + token.len ≤ length text.now }
        ensures { result ≡ identifier_by text.now self token }
    {
        token.is_escaped()
            || (is_plain(text, token)
                && !(self.backtick && self.end == token.at)
                && !self.is_of_constant(text, token))
    }

    fn is_title(self, text: &[u8], token: Token) -> bool
        requires { token.at + token.len ≤ length text.now }
        ensures { result ≡ title_by text.now self token }
    {
        (token.is_escaped() || is_plain(text, token)) && self.module_word
    }

    fn is_header(self, text: &[u8], token: Token) -> bool
        requires { token.at + token.len ≤ length text.now }
        ensures { result ≡ header_by text.now self token }
    {
        !token.is_sign(text, b')') && (self.header || (token.is_sign(text, b'(') && self.title))
    }

    /// What is kept one token further.
    pub fn with(self, text: &[u8], token: Token) -> Before
        requires { token.at + token.len ≤ length text.now }
        ensures { result ≡ kept_by text.now self token }
    {
        let identifier = self.is_identifier(text, token);
        let base = self.is_base(text, token);
        Before {
            backtick: token.is_sign(text, b'`'),
            quote: token.is_sign(text, b'\''),
            end: token.at + token.len,
            of_constant: self.is_of_constant(text, token),
            bare_base: base & (token.len == 1),
            one: identifier,
            two: identifier & self.one,
            module_word: token.is_word(text, b"module"),
            title: self.is_title(text, token),
            header: self.is_header(text, token),
        }
    }

    /// Whether the token, which begins no directive, is left out.
    pub fn leaves_out(self, text: &[u8], token: Token) -> bool
        requires { token.at + token.len ≤ length text.now }
        ensures { result ≡ left_out_by text.now self token }
    {
        (token.is_name() && is_left_out(token.bytes(text)))
            || token.is_sign(text, b'#')
            || (token.is_sign(text, b'[') && self.two)
            || (token.is_sign(text, b'.') && self.header)
    }
}
