/// A word of a text: the bytes from `at` on, as many as `len`.
#[derive(Clone, Copy, Debug, PartialEq, Eq)]
pub struct Word {
    pub at: usize,
    pub len: usize,
}
