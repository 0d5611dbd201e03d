ghost use Rattle.std.specs.Prelude.{◌≡◌, ◌==◌, ◌<◌, ℕ, false, length, All};
ghost use Rattle.std.specs.List.{list_any};
ghost use Rattle.bud_design.specs.Designs.{pin_at};
ghost use Rattle.registers.specs.Marks.{mark_at, set_at, set_of, IsSetupWithin, IsThroughWithin, AreCheckEdges, AreNamedEdges};

use crate::edge_sets::EdgeSet;
use crate::entries::{Setup, Through};
use bud_design::Pin;

/// Adds the edges that each check counts for to those of its clock pin.
pub fn put_check_edges(setups: &[Setup], sets: &mut [EdgeSet])
    requires within { All (IsSetupWithin (length sets.old)) setups.now }
    requires none { (v : ℕ) → set_at sets.old v ≡ record { rise = false; fall = false } }
    ensures edges { AreCheckEdges setups.now sets.new }
    ensures size { length sets.new ≡ length sets.old }
{
    let mut low = setups.len();
    while low > 0 {
        low -= 1;
        let setup = &setups[low];
        let pin = setup.clock.0 as usize;
        sets[pin] = EdgeSet::named_or_both(setup.edge).with(sets[pin]);
    }
}

/// Adds the edge that each delay names to those of the pin that it leaves.
pub fn put_named_edges(throughs: &[Through], sets: &mut [EdgeSet])
    requires within { All (IsThroughWithin (length sets.old)) throughs.now }
    requires none { (v : ℕ) → set_at sets.old v ≡ record { rise = false; fall = false } }
    ensures edges { AreNamedEdges throughs.now sets.new }
    ensures size { length sets.new ≡ length sets.old }
{
    let mut low = throughs.len();
    while low > 0 {
        low -= 1;
        let through = &throughs[low];
        let pin = through.from.0 as usize;
        sets[pin] = EdgeSet::named(through.edge).with(sets[pin]);
    }
}

/// Marks the checked pins.
pub fn put_checked(setups: &[Setup], marks: &mut [bool])
    requires within { All (IsSetupWithin (length marks.old)) setups.now }
    requires none { (v : ℕ) → mark_at marks.old v ≡ false }
    ensures marks { (v : ℕ) → mark_at marks.new v ≡ list_any (λ s. s.pin.0 == v) setups.now }
    ensures size { length marks.new ≡ length marks.old }
{
    let mut low = setups.len();
    while low > 0 {
        low -= 1;
        marks[setups[low].pin.0 as usize] = true;
    }
}

/// Marks the clock pins.
pub fn put_clocks(setups: &[Setup], marks: &mut [bool])
    requires within { All (IsSetupWithin (length marks.old)) setups.now }
    requires none { (v : ℕ) → mark_at marks.old v ≡ false }
    ensures marks { (v : ℕ) → mark_at marks.new v ≡ list_any (λ s. s.clock.0 == v) setups.now }
    ensures size { length marks.new ≡ length marks.old }
{
    let mut low = setups.len();
    while low > 0 {
        low -= 1;
        marks[setups[low].clock.0 as usize] = true;
    }
}

/// Marks the instances of clock pins.
pub fn put_registers(pins: &[Pin], setups: &[Setup], marks: &mut [bool])
    requires within { All (IsSetupWithin (length pins.now)) setups.now }
    requires places { All (λ pin. pin.place < length marks.old) pins.now }
    requires none { (p : ℕ) → mark_at marks.old p ≡ false }
    ensures marks { (p : ℕ) → mark_at marks.new p ≡ list_any (λ s. (pin_at pins.now s.clock.0).place == p) setups.now }
    ensures size { length marks.new ≡ length marks.old }
{
    let mut low = setups.len();
    while low > 0 {
        low -= 1;
        let pin = &pins[setups[low].clock.0 as usize];
        marks[pin.place as usize] = true;
    }
}
