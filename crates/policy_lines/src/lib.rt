//! What the lines of a policy say of a design: the share of each arc in a class of a clock, and the refusals of lines.
#![tactic(auto)]

mod faults;
mod named;
mod places;
mod refusals;
mod shares;

pub use named::line_number;
pub use places::is_inside;
pub use refusals::line_numbers;
pub use shares::{Share, last_share};
