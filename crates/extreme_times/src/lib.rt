//! The earliest and the latest time of each node of a sound problem.
#![tactic(auto)]

mod causes;
mod checks;
mod orders;
mod sweeps;
#[cfg(test)]
mod tests;
mod times;

pub use times::{Extremes, extreme_times};
