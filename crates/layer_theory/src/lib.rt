//! How the layering of a design is answered, and the laws of layerings: their paths are the constrained paths, and they are sound.
#![tactic(auto)]

mod refusals;

pub use refusals::LayerFault;
