ghost use Rattle.std.specs.Prelude.{◌≤◌};

/// What headers set: the divider of names, and the unit of values in ps.
#[derive(Clone, Copy)]
pub struct Settings {
    pub divider: u8,
    pub unit: u64,
    ghost some: { 1 ≤ unit },
    ghost most: { unit ≤ 100000000 },
}
