//! The calls of a shelf or a sink in memory, some of which are to fail.
ghost use Rattle.std.specs.Prelude.{◌≡◌, ◌≤◌, ◌+◌, ◌==◌, OnOk, OnErr};
ghost use Rattle.std.specs.List.{list_any};
ghost use Rattle.bud_shelf.specs.Calls.{no_calls, fails_next, after_call, with_failing};

use std::alloc::{AllocError, Global};
use std::marker::Model;

/// Counts calls and faults, each up to 2^64 - 1, and knows the numbers of the calls that are to fail.
#[derive(Debug, Drop)]
pub struct CallLog {
    made: u64,
    failing: Vec<u64>,
    faults: u64,
}

impl Model for CallLog {
    ghost use Rattle.bud_shelf.specs.Calls.{Calls, calls_code};

    ghost Value = { Calls };

    ghost coded = { calls_code };

    ghost view = { λ c. record { made = c.made; failing = c.failing.items; faults = c.faults } };
}

impl CallLog {
    pub fn new(alloc: Global) -> CallLog
        ensures { result ≡ no_calls }
    {
        CallLog {
            made: 0,
            failing: Vec::new(alloc),
            faults: 0,
        }
    }

    pub fn fail_at(&mut self, call: u64) -> Result<(), AllocError>
        ensures ok { OnOk result (self.new ≡ with_failing self.old call) }
        ensures err { OnErr result (self.new ≡ self.old) }
    {
        self.failing.push(call)?;
        Ok(())
    }

    /// Counts a call, and its fault where it is to fail. The answer is whether it is.
    pub fn next_fails(&mut self) -> bool
        ensures answer { result ≡ fails_next self.old }
        ensures after { self.new ≡ after_call self.old }
        ensures count { self.old.faults ≤ self.new.faults }
    {
        let fails = contains_next(self.failing.as_slice(), self.made);
        self.made = self.made.saturating_add(1);
        if fails {
            self.faults = self.faults.saturating_add(1);
        }
        fails
    }
}

/// Whether the number after `made` is in the list. What comes after the last u64 is not.
fn contains_next(failing: &[u64], made: u64) -> bool
    ensures { result ≡ list_any (λ number. number == (made + 1)) failing.now }
{
    match made.checked_add(1) {
        Some(next) => failing.contains(&next),
        None => false,
    }
}
