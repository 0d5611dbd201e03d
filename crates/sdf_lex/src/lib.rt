//! The tokens of delay files (IEEE 1497).
#![tactic(auto)]

mod laws;
mod lexemes;
mod stretches;
#[cfg(test)]
mod tests;
mod tokens;

pub use laws::tokens_of_texts;
pub use lexemes::{Kind, Lexeme};
pub use tokens::next_token;
