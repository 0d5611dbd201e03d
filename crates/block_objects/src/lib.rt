//! Names and objects as a block's file has them.
#![tactic(auto)]

mod names;
mod objects;
mod prefixes;

pub use names::{BlockNames, pin_name, virtual_name};
pub use objects::{put_pins, put_ports, put_reals, put_virtuals};
pub use prefixes::prefix;

#[cfg(test)]
mod tests;
