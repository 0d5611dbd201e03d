ghost use Rattle.std.specs.Prelude.{◌≡◌, ◌<◌, ◌≤◌, ◌<ℤ◌, ◌≤ℤ◌, false, List, Option, length, slice_set, IsTrue};
ghost use Rattle.std.specs.List.{SwappedAt};
ghost use Rattle.search_heap.specs.Heaps.{near_at, far, IsBelow, IsHeap, IsHeapBut, IsNearEnough, IsFarEnough, IsNearestBelow, ArePlaced};
ghost use Rattle.search_heap.specs.Offers.{AreOffered};
ghost use Rattle.search_heap.specs.declared.entries.Entry.{Entry};

use crate::entries::Near;

/// The place right above another.
fn place_above(place: usize) -> usize
    requires { 0 < place }
    ensures { IsBelow result place }
{
    (place - 1) / 2
}

/// Exchanges the offers at two places.
pub fn exchange(offers: &mut [Near], places: &mut [usize], one: usize, other: usize)
    requires one { one < length offers.old }
    requires other { other < length offers.old }
    requires first { (near_at offers.old one).node.0 < length places.old }
    requires second { (near_at offers.old other).node.0 < length places.old }
    ensures offers { SwappedAt offers.old offers.new one other }
    ensures places { places.new ≡ slice_set (slice_set places.old (near_at offers.old one).node.0 other) (near_at offers.old other).node.0 one }
{
    places[offers[one].node.0 as usize] = other;
    places[offers[other].node.0 as usize] = one;
    offers.swap(one, other);
}

/// Whether the offer at one place is nearer than that at another.
fn is_nearer(offers: &[Near], one: usize, other: usize) -> bool
    requires one { one < length offers.now }
    requires other { other < length offers.now }
    ensures yes { IsTrue result → far offers.now one <ℤ far offers.now other }
    ensures no { result ≡ false → far offers.now other ≤ℤ far offers.now one }
{
    offers[one].distance < offers[other].distance
}

/// Brings the offer at a place up to where none above it is farther.
pub fn rise(offers: &mut [Near], places: &mut [usize], count: usize, from: usize)
    requires count { count ≤ length offers.old }
    requires from { from < count }
    requires placed { ArePlaced offers.old places.old count }
    requires heap { IsHeapBut count (far offers.old) from }
    requires near_enough { IsNearEnough count (far offers.old) from }
    ensures heap { IsHeap count (far offers.new) }
    ensures same { (entries : List (Option Entry)) → AreOffered entries offers.old places.old count → AreOffered entries offers.new places.new count }
{
    let mut place = from;
    'levels: while place > 0 {
        let above = place_above(place);
        if is_nearer(offers, place, above) {
            exchange(offers, places, above, place);
            place = above;
        } else {
            return;
        }
    }
}

/// The place right below another of the nearer offer there, if there is one.
fn nearest_below(offers: &[Near], count: usize, place: usize) -> Option<usize>
    requires count { count ≤ length offers.now }
    requires place { place ≤ count }
    ensures { IsNearestBelow count (far offers.now) place result }
{
    let first = 2 * place + 1;
    if first >= count {
        return None;
    }
    if first + 1 >= count || offers[first].distance <= offers[first + 1].distance {
        return Some(first);
    }
    Some(first + 1)
}

/// Brings the offer at a place down to where none below it is nearer.
pub fn sink(offers: &mut [Near], places: &mut [usize], count: usize, from: usize)
    requires count { count ≤ length offers.old }
    requires from { from ≤ count }
    requires placed { ArePlaced offers.old places.old count }
    requires heap { IsHeapBut count (far offers.old) from }
    requires far_enough { IsFarEnough (far offers.old) from }
    ensures heap { IsHeap count (far offers.new) }
    ensures same { (entries : List (Option Entry)) → AreOffered entries offers.old places.old count → AreOffered entries offers.new places.new count }
{
    let mut place = from;
    'levels: while let Some(below) = nearest_below(offers, count, place) {
        if is_nearer(offers, below, place) {
            exchange(offers, places, place, below);
            place = below;
        } else {
            return;
        }
    }
}
