//! What the captures at a pin ask for by a class.
#![tactic(auto)]

mod asks;

pub use asks::{least_ask, link_captures};
