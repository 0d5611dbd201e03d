ghost use Rattle.std.specs.Prelude.{◌≡◌, ◌==◌, ◌<◌, ◌≤◌, ℕ, true, length, AllPairs};
ghost use Rattle.std.specs.List.{list_any};
ghost use Rattle.bud_design.specs.Designs.{pin_at};
ghost use Rattle.bud_design.specs.Orders.{check_before, edge_pin_before};
ghost use Rattle.timing_objects.specs.Spans.{IsSpan};

use bud_base::PinId;
use bud_design::{Check, LaunchEdge, Pin};

/// Where pins stand in their list: from the first number to below the second.
#[derive(Clone, Copy, Debug)]
pub struct Span {
    pub start: usize,
    pub end: usize,
}

/// How many pins stand in lower places, in logarithmic time.
fn start_of(pins: &[Pin], place: u32) -> usize
    requires { AllPairs (λ u v. u.place ≤ v.place) pins.now }
    ensures within { result ≤ length pins.now }
    ensures before { (v : ℕ) → v < result → (pin_at pins.now v).place < place }
    ensures behind { (v : ℕ) → result ≤ v → v < length pins.now → place ≤ (pin_at pins.now v).place }
{
    pins.partition_point(|pin| pin.place < place)
}

/// How many pins stand in lower places or in this one, in logarithmic time.
fn end_of(pins: &[Pin], place: u32) -> usize
    requires { AllPairs (λ u v. u.place ≤ v.place) pins.now }
    ensures within { result ≤ length pins.now }
    ensures before { (v : ℕ) → v < result → (pin_at pins.now v).place ≤ place }
    ensures behind { (v : ℕ) → result ≤ v → v < length pins.now → place < (pin_at pins.now v).place }
{
    pins.partition_point(|pin| pin.place <= place)
}

/// Where the port bits of a place stand.
pub fn span_of(pins: &[Pin], place: u32) -> Span
    requires { AllPairs (λ u v. u.place ≤ v.place) pins.now }
    ensures { IsSpan pins.now place result.start result.end }
{
    Span {
        start: start_of(pins, place),
        end: end_of(pins, place),
    }
}

/// Whether an edge stands at the pin, in logarithmic time.
pub fn has_edge(edges: &[LaunchEdge], pin: PinId) -> bool
    requires { AllPairs (λ x y. edge_pin_before x y ≡ true) edges.now }
    ensures { result ≡ list_any (λ x. x.pin.0 == pin.0) edges.now }
{
    let place = edges.partition_point(|edge| edge.pin.0 < pin.0);
    if place == edges.len() {
        return false;
    }
    edges[place].pin.0 == pin.0
}

/// Whether a check stands at the pin, in logarithmic time.
pub fn has_check(checks: &[Check], pin: PinId) -> bool
    requires { AllPairs (λ x y. check_before x y ≡ true) checks.now }
    ensures { result ≡ list_any (λ x. x.pin.0 == pin.0) checks.now }
{
    let place = checks.partition_point(|check| check.pin.0 < pin.0);
    if place == checks.len() {
        return false;
    }
    checks[place].pin.0 == pin.0
}
