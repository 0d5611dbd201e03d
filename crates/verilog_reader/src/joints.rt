use crate::readings::Reading;

/// A place in an expression: how many braces are open, whether an expression has to come, and what is left.
#[derive(Clone, Copy, Debug)]
pub struct Joint<'a> {
    pub depth: usize,
    pub wanted: bool,
    pub rest: Reading<'a>,
}
