//! Worked designs with their budgets: what `plan` prints and writes of them, and what `check` says of certificates.
#![tactic(auto)]

#[cfg(test)]
mod tests;
