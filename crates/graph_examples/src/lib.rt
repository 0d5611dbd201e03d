//! Worked designs, with their arcs, orders and cycles: tests alone.
#![tactic(auto)]

#[cfg(test)]
mod tests;
