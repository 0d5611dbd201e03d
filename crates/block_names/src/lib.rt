//! Names in a block's design: each pin inside it has one of its own.
#![tactic(auto)]

mod laws;

pub use laws::{
    block_clocks_have_own_names, clock_names_differ, exceptions_read_as_meant, pins_have_own_names,
    port_delays_read_as_meant,
};
