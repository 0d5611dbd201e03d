//! The steps of jobs: input files and what they read as, refusals with their causes, and what a job comes to.
#![tactic(auto)]

mod inputs;
mod outcomes;

pub use inputs::{Input, load, read_text, stopped};
pub use outcomes::{Answer, Said, Stop, Write, refused, refused_by};
