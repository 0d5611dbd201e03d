//! The states from which edges lead on to an end.
#![tactic(auto)]

mod leading;

pub use leading::mark_leading;
