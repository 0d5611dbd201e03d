use verilog_lex::Token;

/// Why a production isn't read.
#[derive(Clone, Copy, Debug)]
pub enum Stop {
    /// What stands at this offset isn't what may stand there.
    Syntax(usize),
    /// Want of memory.
    NoMemory,
}

/// What is left to read of a text: its tokens that are left, whether a module is a leaf here, and the least offset so
/// far of a number out of its range.
#[derive(Clone, Copy, Debug)]
pub struct Reading<'a> {
    pub text: &'a [u8],
    pub tokens: &'a [Token],
    pub leaf: bool,
    pub breach: Option<usize>,
}
