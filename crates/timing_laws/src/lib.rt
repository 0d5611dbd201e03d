//! Laws by which a delay file and commands have one meaning.
#![tactic(auto)]

mod laws;

pub use laws::interconnects_decide_delays;
