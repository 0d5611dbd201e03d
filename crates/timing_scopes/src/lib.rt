//! What timing commands say, in their order, of a flat design: clocks, delays at ports, and exceptions.
#![tactic(auto)]

mod clocks;
mod commands;
mod delays;
mod exceptions;
mod scopes;

pub use commands::scope_of;
pub use scopes::{PinDelay, PinDelays, Scope};
