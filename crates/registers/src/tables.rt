ghost use Rattle.std.specs.Prelude.{◌≡◌, ◌+◌, ◌<◌, true, false, IsTrue, IfOk, length};
ghost use Rattle.std.specs.List.Sorted.{IsPermutation, IsSorted};
ghost use Rattle.registers.specs.Tables.{valued_at, valued_cmp, same_place, AreGreatest, IsLast, IsThinned};

use bud_base::PinId;
use std::alloc::{AllocError, Global};

/// A value at two pins and an edge.
#[derive(Clone, Copy, Debug, PartialEq, Eq, PartialOrd, Ord)]
pub struct Valued {
    pub first: PinId,
    pub second: PinId,
    pub falls: bool,
    pub value: i64,
}

/// Sorts values by pins, edge and value.
fn sort(values: &mut [Valued])
    ensures sorted { IsSorted valued_cmp values.new }
    ensures permutation { IsPermutation values.old values.new }
{
    values.sort_unstable();
}

/// Whether the values stand at the same pins and edge.
fn is_same_place(x: &Valued, y: &Valued) -> bool
    ensures { result ≡ same_place x.now y.now }
{
    x.first == y.first && x.second == y.second && x.falls == y.falls
}

/// Whether the value at this place is the last at its pins and edge.
fn is_last(values: &[Valued], place: usize) -> bool
    requires { place < length values.now }
    ensures last { IsTrue result → IsLast values.now place }
    ensures other { result ≡ false → (place + 1 < length values.now) × (same_place (valued_at values.now place) (valued_at values.now (place + 1)) ≡ true) }
{
    if place + 1 == values.len() {
        return true;
    }
    !is_same_place(&values[place], &values[place + 1])
}

/// The last of each row of sorted values at the same pins and edge.
fn last_of_each(alloc: Global, values: &[Valued]) -> Result<Vec<Valued>, AllocError>
    requires { IsSorted valued_cmp values.now }
    ensures { IfOk result (λ kept. IsThinned values.now (length values.now) kept.items) }
{
    let mut kept = Vec::new(alloc);
    for place in 0..values.len() {
        if is_last(values, place) {
            kept.push(values[place])?;
        }
    }
    Ok(kept)
}

/// The greatest value at each two pins and edge, in order of these. It sorts the values.
pub fn greatest_of_each(alloc: Global, values: &mut [Valued]) -> Result<Vec<Valued>, AllocError>
    ensures { IfOk result (λ kept. AreGreatest values.old kept.items) }
{
    sort(values);
    last_of_each(alloc, values)
}
