//! What the program prints: the lines of causes, answers and violated paths, and the statuses that runs end with.
#![tactic(auto)]

mod answers;
mod causes;
mod certificates;
mod design_paths;
mod designs;
mod faults;
mod lines;
mod readings;
mod scenes;
mod statuses;
#[cfg(test)]
mod tests;
mod violations;

pub use answers::{holds_text, meets_text, no_paths_text};
pub use causes::{Cause, fault_text};
pub use scenes::Scene;
pub use statuses::Status;
pub use violations::violation_text;
