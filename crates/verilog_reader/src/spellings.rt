ghost use Rattle.std.specs.Prelude.{◌+◌, ◌^◌, ◌<◌, length};

use verilog_lex::Kind;

/// A token with its bytes.
#[derive(Clone, Copy, Debug)]
pub struct Spelling<'a> {
    pub kind: Kind,
    pub at: usize,
    pub bytes: &'a [u8],
    ghost within: { at + length bytes.now < 2 ^ 64 },
}
