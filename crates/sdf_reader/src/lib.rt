//! The reader of delay files (IEEE 1497).
#![tactic(auto)]

mod cells;
mod checks;
mod contexts;
mod entries;
mod faults;
mod headers;
mod laws;
mod left_out;
mod marks;
mod names;
mod nests;
mod numbers;
mod reader;
mod rows;
mod said;
mod settings;
#[cfg(test)]
mod tests;
mod values;

pub use faults::SdfFault;
pub use laws::{
    all_repetitions, lists_are_balanced, names_have_their_form, numbers_are_decimals, one_value,
    repetitions,
};
pub use reader::read_sdf;
