use line_text::Span;

/// What kind of token it is.
#[derive(Clone, Copy, Debug, PartialEq, Eq)]
pub enum Kind {
    /// `(`
    Open,
    /// `)`
    Close,
    /// A string between double quotes, which belong to it.
    Quoted,
    /// A longest run of letters, digits, `_`, `$`, `.`, `/`, brackets, and backslashes each with the character after
    /// it; also with a sign in front. So it may be a keyword, a name or a number.
    Word,
    /// Another printable character.
    Sign,
    /// A byte that no token has, or a string or comment that isn't closed.
    Stray,
}

/// A token of a text.
#[derive(Clone, Copy, Debug)]
pub struct Lexeme<'a> {
    pub kind: Kind,
    pub span: Span<'a>,
}
