//! The tokens of a Verilog text: identifiers, numbers, strings and signs, and what is skipped between them.
#![tactic(auto)]

mod classes;
mod fronts;
mod kinds;
mod lexer;
#[cfg(test)]
mod tests;

pub use kinds::{Kind, LexFault, Token, TokenList};
pub use lexer::{one_list, tokens};
