//! Laws of block files: they compose, and the budgets meet them.
#![tactic(auto)]

mod laws;

pub use laws::{
    amounts_change_no_scope, budgets_meet_files, budgets_meet_pieces, captures_ask_alike,
    files_compose, pieces_compose,
};
