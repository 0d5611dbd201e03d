//! Worked timing constraints, with what `least` prints under them: tests alone.
#![tactic(auto)]

#[cfg(test)]
mod tests;
