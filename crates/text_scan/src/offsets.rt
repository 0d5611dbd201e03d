ghost use Rattle.std.specs.Prelude.{◌≡◌};
ghost use Rattle.text_scan.specs.Left.{lesser};

/// The lesser of two offsets, where there are any.
#[inline]
pub fn lesser_of(first: Option<usize>, second: Option<usize>) -> Option<usize>
    ensures { result ≡ lesser first second }
{
    match (first, second) {
        (None, _) => second,
        (_, None) => first,
        (Some(a), Some(b)) => Some(a.min(b)),
    }
}
