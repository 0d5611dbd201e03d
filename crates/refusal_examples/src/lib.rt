//! Designs that are refused, with what `least` prints of them: tests alone.
#![tactic(auto)]

#[cfg(test)]
mod tests;
