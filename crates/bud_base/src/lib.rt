//! What every crate speaks of: the ids, texts, and the raw problem with its paths.
#![tactic(auto)]

mod checks;
mod ids;
pub mod laws;
mod links;
mod lists;
mod liveness;
mod orders;
mod problems;
mod ranges;
mod steps;
#[cfg(test)]
mod tests;
mod texts;

pub use checks::ProblemFault;
pub use ids::{ArcId, ClassId, ItemId, NodeId, PinId};
pub use links::Links;
pub use lists::{Listed, Times};
pub use orders::NodeOrder;
pub use problems::{End, Ends, Item, Items, Problem, Start, Starts};
pub use steps::Steps;
pub use texts::{Text, TextFault};
