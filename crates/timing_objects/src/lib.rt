//! What the objects of timing commands stand for in a flat design, and the refusals of objects.
#![tactic(auto)]

mod clock_tables;
mod faults;
mod judging;
mod objects;
mod orders;
mod port_names;
mod port_tables;
mod scenes;
mod things;

pub use clock_tables::ClockTable;
pub use faults::ResolveFault;
pub use judging::{all_things, marks_of, pins_of, things_in};
pub use scenes::Scene;
pub use things::{Role, Thing, Things};
