ghost use Rattle.std.specs.Prelude.{◌+◌, ◌^◌, ◌<◌, length};

/// A part of a text: its bytes, and the offset in the text at which they begin.
#[derive(Clone, Copy, Debug)]
pub struct Span<'a> {
    pub bytes: &'a [u8],
    pub at: usize,
    ghost within: { at + length bytes.now < 2 ^ 63 },
}
