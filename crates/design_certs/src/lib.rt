//! Certificates of designs: their lines name pins and classes.
#![tactic(auto)]

mod certs;
mod classes;
mod laws;
mod layer_names;
#[cfg(test)]
mod tests;

pub use certs::{cert_of, check_cert};
pub use laws::layered_classes;
