//! What every netlist that is read keeps, as elaboration needs it.
#![tactic(auto)]

mod laws;

pub use laws::ports_stand_once;
