ghost use Rattle.std.specs.Prelude.{ℕ, ◌<◌, ◌+ℤ◌, ◌≤ℤ◌, length, IsTrue};
ghost use Rattle.bud_base.specs.Paths.{item_at, start_at, end_at};
ghost use Rattle.bud_flow.specs.Sums.{number_at};

use crate::sweeps::time_of;
use bud_base::{End, Item, Start};

/// Whether times suit an item at its least delay.
fn suits_item(times: &[i64], item: &Item) -> bool
    ensures { IsTrue result → (number_at times.now item.now.from.0 +ℤ item.now.least) ≤ℤ number_at times.now item.now.to.0 }
{
    i128::from(time_of(times, item.from)) + i128::from(item.least)
        <= i128::from(time_of(times, item.to))
}

/// Whether times suit all items at their least delays.
pub fn suit_items(times: &[i64], items: &[Item]) -> bool
    ensures { IsTrue result → (i : ℕ) → i < length items.now → (number_at times.now (item_at items.now i).from.0 +ℤ (item_at items.now i).least) ≤ℤ number_at times.now (item_at items.now i).to.0 }
{
    for item in items {
        if !suits_item(times, item) {
            return false;
        }
    }
    true
}

/// Whether no time is before the offset of a start at its node.
pub fn suit_starts(times: &[i64], starts: &[Start]) -> bool
    ensures { IsTrue result → (s : ℕ) → s < length starts.now → (start_at starts.now s).offset ≤ℤ number_at times.now (start_at starts.now s).node.0 }
{
    for start in starts {
        if time_of(times, start.node) < start.offset {
            return false;
        }
    }
    true
}

/// Whether no time is past the required time of an end at its node.
pub fn suit_ends(times: &[i64], ends: &[End]) -> bool
    ensures { IsTrue result → (e : ℕ) → e < length ends.now → number_at times.now (end_at ends.now e).node.0 ≤ℤ (end_at ends.now e).require }
{
    for end in ends {
        if end.require < time_of(times, end.node) {
            return false;
        }
    }
    true
}
