ghost use Rattle.std.specs.Prelude.{◌≤◌};

/// What entries stand in: the divider of names, the unit of values in ps, the type of the cell, and the name of the
/// instance as in the text.
#[derive(Clone, Copy)]
pub struct Context<'a> {
    pub divider: u8,
    pub unit: u64,
    pub cell: &'a [u8],
    pub instance: &'a [u8],
    ghost some: { 1 ≤ unit },
    ghost most: { unit ≤ 100000000 },
}
