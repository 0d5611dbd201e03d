//! Worked designs, with what the jobs print of them.
#![tactic(auto)]

#[cfg(test)]
mod tests;
