//! Certificates: their lines, and the text that writes them.
#![tactic(auto)]

mod certs;
mod exceptions;
mod lines;
mod reader;
mod writer;

pub use certs::{
    Cert, CertClass, CertClasses, CertException, CertExceptions, CertFlow, CertFlows, CertItem,
    CertItems, CertNode, CertNodes,
};
pub use reader::{one_value, read_cert};
pub use writer::write_cert;
