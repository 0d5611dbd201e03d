//! Numbered objects by the keys of their names.
#![tactic(auto)]

mod chains;
mod keys;

pub use chains::Chains;
pub use keys::{is_escape, key_behind, plain_key_behind};
