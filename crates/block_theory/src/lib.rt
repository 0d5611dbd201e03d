//! What the constraint files of blocks say, and what it means that they compose.
#![tactic(auto)]

mod laws;
mod refusals;

pub use laws::{
    arcs_inside_end_inside, arcs_outside_cross_ports, classes_stay_inside, prefix_is_free,
    suiting_arrivals_lie_between,
};
pub use refusals::WriteFault;
