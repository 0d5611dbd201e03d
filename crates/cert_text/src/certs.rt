use bud_base::{ClassId, Listed, Text};
use bud_syntax::Edge;

/// An exception that a class meets by its from-part, by its number, and where it has groups how many of them are met.
#[derive(Clone, Copy, Debug, PartialEq, Eq)]
pub struct CertException {
    pub number: u32,
    pub steps: Option<u32>,
}

/// The line of a class.
#[derive(Debug, Drop)]
pub struct CertClass {
    pub number: ClassId,
    /// The name of the class's clock.
    pub clock: Text,
    pub edge: Edge,
    pub exceptions: CertExceptions,
}

/// The line of a node.
#[derive(Debug, Drop)]
pub struct CertNode {
    pub name: Text,
    pub class: ClassId,
    /// In ps.
    pub arrival: i64,
}

/// The line of an item.
#[derive(Debug, Drop)]
pub struct CertItem {
    pub from: Text,
    pub to: Text,
    pub class: ClassId,
    /// In ps.
    pub budget: i64,
    pub flow: i64,
}

/// The line of a start or an end.
#[derive(Debug, Drop)]
pub struct CertFlow {
    pub name: Text,
    pub class: ClassId,
    pub flow: i64,
}

pub type CertExceptions = Listed<CertException>;

pub type CertClasses = Listed<CertClass>;

pub type CertNodes = Listed<CertNode>;

pub type CertItems = Listed<CertItem>;

pub type CertFlows = Listed<CertFlow>;

/// The lines of a certificate, in the order in which they are written.
#[derive(Debug, Drop)]
pub struct Cert {
    /// The version of the policy, 1 or 2.
    pub policy: u32,
    pub classes: CertClasses,
    pub nodes: CertNodes,
    pub items: CertItems,
    pub starts: CertFlows,
    pub ends: CertFlows,
    /// What the budgets weigh.
    pub weight: i128,
}
