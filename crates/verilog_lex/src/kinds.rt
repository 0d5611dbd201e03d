ghost use Rattle.std.specs.Prelude.{◌≡◌, ◌+◌, ◌≤◌, length};
ghost use Rattle.verilog_lex.specs.Kinds.{bytes_of, is_name, is_escaped, is_number, is_sign, is_word};

use bud_base::Listed;
use thiserror::Error;

/// What a token is (IEEE 1364).
#[derive(Clone, Copy, Debug, PartialEq, Eq)]
pub enum Kind {
    /// An identifier or a word of the language: a letter or `_`, then letters, digits, `_` and `$`.
    Name,
    /// An escaped identifier: a backslash and the printable bytes behind it, at least one. White space ends it and
    /// doesn't belong to it; its name is what stands behind the backslash.
    Escaped,
    /// Decimal digits.
    Number,
    /// A string with its double quotes, on one line; a backslash has no meaning in it.
    Quoted,
    /// Any other printable byte.
    Sign,
}

/// A token of a text: the bytes from `at` on, as many as `len`.
#[derive(Clone, Copy, Debug, PartialEq, Eq)]
pub struct Token {
    pub kind: Kind,
    /// The offset at which it begins.
    pub at: usize,
    /// How many bytes it has.
    pub len: usize,
}

pub type TokenList = Listed<Token>;

/// Why a text has no tokens.
#[derive(Clone, Copy, Debug, PartialEq, Eq, Error)]
pub enum LexFault {
    /// A comment, an attribute or a string that begins at this offset is unclosed, or no token has the byte that
    /// stands there.
    #[error("syntax")]
    Syntax(usize),
    /// Want of memory.
    #[error("memory")]
    NoMemory,
}

impl Token {
    /// The bytes of the token in its text.
    #[inline]
    pub fn bytes<'a>(self, text: &'a [u8]) -> &'a [u8]
        requires { self.at + self.len ≤ length text.now }
        ensures { result.now ≡ bytes_of text.now self }
    {
        &text[self.at..self.at + self.len]
    }

    #[inline]
    pub fn is_name(self) -> bool
        ensures { result ≡ is_name self }
    {
        match self.kind {
            Kind::Name => true,
            _ => false,
        }
    }

    #[inline]
    pub fn is_escaped(self) -> bool
        ensures { result ≡ is_escaped self }
    {
        match self.kind {
            Kind::Escaped => true,
            _ => false,
        }
    }

    #[inline]
    pub fn is_number(self) -> bool
        ensures { result ≡ is_number self }
    {
        match self.kind {
            Kind::Number => true,
            _ => false,
        }
    }

    /// Whether it is this sign.
    #[inline]
    pub fn is_sign(self, text: &[u8], sign: u8) -> bool
        requires { self.at + self.len ≤ length text.now }
        ensures { result ≡ is_sign text.now sign self }
    {
        match self.kind {
            Kind::Sign => self.bytes(text) == [sign].as_slice(),
            _ => false,
        }
    }

    /// Whether it is this word: a name, not escaped, of these bytes.
    #[inline]
    pub fn is_word(self, text: &[u8], word: &[u8]) -> bool
        requires { self.at + self.len ≤ length text.now }
        ensures { result ≡ is_word text.now word.now self }
    {
        match self.kind {
            Kind::Name => self.bytes(text) == word,
            _ => false,
        }
    }
}
