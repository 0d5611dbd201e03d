//! The state of a design's timing that edits change: what an edit makes of it or why it is refused, and the answer to a state.
#![tactic(auto)]

mod answers;
mod faults;
mod laws;

pub use answers::Answer;
pub use faults::{EditFault, SessionFault};
pub use laws::{edits_keep_order, one_state};
