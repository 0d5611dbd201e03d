//! The words of a Verilog text that aren't identifiers, and the first word that structural Verilog leaves out.
#![tactic(auto)]

mod finder;
mod neighbours;
mod regions;
mod reserved;
#[cfg(test)]
mod tests;
mod words;

pub use finder::{first_left_out, one_first};
pub use reserved::{is_left_out, is_reserved};
pub use words::Word;
