ghost use Rattle.std.specs.Prelude.{◌≡◌, ◌≤◌, ◌<◌, ◌^◌, length, None};
ghost use Rattle.std.specs.Option.{ForSome};

use crate::spans::Span;

/// What is left to read of a line or a text, and the least offset so far of a number out of its range.
#[derive(Clone, Copy, Debug)]
pub struct Reading<'a> {
    pub rest: Span<'a>,
    pub breach: Option<usize>,
    ghost passed: { ForSome breach (λ at. at ≤ rest.at) },
}

impl<'a> Reading<'a> {
    /// A whole text, of which nothing is read.
    pub fn new(text: &'a [u8]) -> Reading<'a>
        requires { length text.now < 2 ^ 63 }
        ensures at { result.rest.at ≡ 0 }
        ensures bytes { result.rest.bytes.now ≡ text.now }
        ensures breach { result.breach ≡ None }
    {
        Reading {
            rest: Span { bytes: text, at: 0 },
            breach: None,
        }
    }
}
