ghost use Rattle.std.specs.Prelude.{◌≡◌, ◌<◌, ◌||◌, length, ℕ};
ghost use Rattle.bud_design.specs.Designs.{is_inside as lies_inside, place_at};
ghost use Rattle.bud_design.specs.DesignRules.{HasParent};

use bud_design::Place;

/// Whether a place is another or lies in it, in as many steps as there are places above it.
pub fn is_inside(places: &[Place], root: u32, place: u32) -> bool
    requires within { place < length places.now }
    requires parents { (p : ℕ) → p < length places.now → HasParent p (place_at places.now p).parent }
    ensures { result ≡ lies_inside places.now root place }
{
    let mut here = place;
    while here != root {
        match places[here as usize].parent {
            Some(parent) => here = parent,
            None => return false,
        }
    }
    true
}

/// Whether one of two places equals, holds or lies in the other.
pub fn are_nested(places: &[Place], first: u32, second: u32) -> bool
    requires first { first < length places.now }
    requires second { second < length places.now }
    requires parents { (p : ℕ) → p < length places.now → HasParent p (place_at places.now p).parent }
    ensures { result ≡ lies_inside places.now first second || lies_inside places.now second first }
{
    is_inside(places, first, second) || is_inside(places, second, first)
}
