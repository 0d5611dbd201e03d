//! Certificates: budgets, arrivals and flows of a problem in written form, and the check that they prove the budgets best.
#![tactic(auto)]

mod answers;
mod checks;
mod flow_checks;
mod line_checks;
mod named_certs;
mod names;
mod naming;
mod node_sums;
mod numbers;
mod raw_certs;
mod raw_names;
mod sums;
#[cfg(test)]
mod tests;
mod timing_checks;
mod weights;

pub use answers::{CertAnswer, CertFault, CertPlace};
pub use cert_text::{
    Cert, CertClass, CertClasses, CertException, CertExceptions, CertFlow, CertFlows, CertItem,
    CertItems, CertNode, CertNodes, read_cert, write_cert,
};
pub use checks::{check_named, check_raw};
pub use named_certs::cert_named;
pub use naming::Naming;
pub use raw_certs::raw_cert_of;
pub use sums::Sums;
