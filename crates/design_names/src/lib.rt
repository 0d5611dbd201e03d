//! What the printed names of a design's pins are made of.
#![tactic(auto)]

mod laws;

pub use laws::pin_names_are_graphic;
