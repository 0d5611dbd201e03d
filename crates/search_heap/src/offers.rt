ghost use Rattle.std.specs.Prelude.{◌≡◌, ℕ, ◌+◌, ◌-◌, ◌<◌, ◌≤◌, None, Some, length, slice_set};
ghost use Rattle.search_heap.specs.Entries.{entry_at, waits_at, is_nearer, fresh, reached_by, free_count};
ghost use Rattle.search_heap.specs.Offers.{IsHeaped, IsFarther, IsTakenAt};

use crate::entries::{Entry, Near};
use crate::heaps::{exchange, rise, sink};

/// An entry that waits.
fn waiting_entry(near: Near, by: Option<usize>) -> Entry
    ensures { result ≡ fresh near.distance by }
{
    Entry {
        distance: near.distance,
        by,
        place: None,
    }
}

/// Gives a node without an entry one that waits.
fn offer_first(
    entries: &mut [Option<Entry>],
    offers: &mut [Near],
    places: &mut [usize],
    count: usize,
    near: Near,
    by: Option<usize>,
)
    requires heaped { IsHeaped entries.old offers.old places.old count }
    requires node { near.node.0 < length entries.old }
    requires free { entry_at entries.old near.node.0 ≡ None }
    requires room { count < length entries.old }
    ensures entries { entries.new ≡ slice_set entries.old near.node.0 (Some (fresh near.distance by)) }
    ensures heaped { IsHeaped entries.new offers.new places.new (count + 1) }
{
    let node = near.node.0 as usize;
    entries[node] = Some(waiting_entry(near, by));
    offers[count] = near;
    places[node] = count;
    rise(offers, places, count + 1, count);
}

/// Replaces an entry that waits by a nearer one.
fn offer_nearer(
    entries: &mut [Option<Entry>],
    offers: &mut [Near],
    places: &mut [usize],
    count: usize,
    near: Near,
    by: Option<usize>,
)
    requires heaped { IsHeaped entries.old offers.old places.old count }
    requires node { near.node.0 < length entries.old }
    requires count { count ≤ length entries.old }
    requires farther { IsFarther entries.old near.node.0 near.distance }
    ensures entries { entries.new ≡ slice_set entries.old near.node.0 (Some (fresh near.distance by)) }
    ensures heaped { IsHeaped entries.new offers.new places.new count }
{
    let node = near.node.0 as usize;
    let place = places[node];
    entries[node] = Some(waiting_entry(near, by));
    offers[place] = near;
    rise(offers, places, count, place);
}

/// Whether a node is nearer than an entry that waits.
fn is_nearer_than(near: Near, entry: &Entry) -> bool
    ensures { result ≡ is_nearer near.distance (waits_at entry.now.place) entry.now.distance }
{
    entry.place.is_none() && near.distance < entry.distance
}

/// Tells that a node was reached, and answers how many entries wait then.
pub fn reach_in(
    entries: &mut [Option<Entry>],
    offers: &mut [Near],
    places: &mut [usize],
    count: usize,
    near: Near,
    by: Option<usize>,
) -> usize
    requires heaped { IsHeaped entries.old offers.old places.old count }
    requires node { near.node.0 < length entries.old }
    requires room { count + free_count entries.old ≤ length entries.old }
    ensures entries { entries.new ≡ slice_set entries.old near.node.0 (Some (reached_by (entry_at entries.old near.node.0) near.distance by)) }
    ensures heaped { IsHeaped entries.new offers.new places.new result }
    ensures few { result + free_count entries.new ≡ count + free_count entries.old }
{
    match entries[near.node.0 as usize] {
        None => {
            offer_first(entries, offers, places, count, near, by);
            count + 1
        }
        Some(entry) => {
            if is_nearer_than(near, &entry) {
                offer_nearer(entries, offers, places, count, near, by);
                count
            } else {
                count
            }
        }
    }
}

/// The entry of a node that is taken at a place.
fn taken_entry(entry: Option<Entry>, place: usize) -> Option<Entry>
    ensures none { entry ≡ None → result ≡ None }
    ensures some { (e : Entry) → entry ≡ Some e → result ≡ Some (record { distance = e.distance; by = e.by; place = Some place }) }
{
    match entry {
        Some(entry) => Some(Entry {
            distance: entry.distance,
            by: entry.by,
            place: Some(place),
        }),
        None => None,
    }
}

/// Takes the nearest of the entries that wait.
pub fn take_nearest(
    entries: &mut [Option<Entry>],
    offers: &mut [Near],
    places: &mut [usize],
    count: usize,
    place: usize,
) -> Near
    requires heaped { IsHeaped entries.old offers.old places.old count }
    requires some { 0 < count }
    requires count { count ≤ length entries.old }
    ensures taken { IsTakenAt entries.old entries.new place result }
    ensures heaped { IsHeaped entries.new offers.new places.new (count - 1) }
{
    let near = offers[0];
    let node = near.node.0 as usize;
    entries[node] = taken_entry(entries[node], place);
    exchange(offers, places, 0, count - 1);
    sink(offers, places, count - 1, 0);
    near
}
