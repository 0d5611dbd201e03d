use crate::trees::Named;
use bud_syntax::{Nets, Ports};

/// What a header and a body say of ports and nets.
#[derive(Drop)]
pub struct Survey {
    pub ports: Ports,
    pub nets: Nets,
    pub fault: Option<Named>,
}
