//! The jobs `plan` and `check`: best budgets of a design with their certificate, and the check of any certificate.
#![tactic(auto)]

mod files;
mod jobs;
mod layouts;
mod plans;
mod solving;
mod verdicts;

pub use files::{CertText, PolicyText};
pub use jobs::{check, plan};
pub use layouts::{Layout, laid_out, load_layout};
pub use plans::{CertifiedPlan, certified, planned};
pub use solving::best_plan;
pub use verdicts::verdict;
