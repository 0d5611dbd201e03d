use crate::trees::Named;
use bud_syntax::Modules;

/// A netlist in the loose form: its modules, the fault of theirs that begins first, and the least offset of a number
/// out of its range.
#[derive(Drop)]
pub struct Found {
    pub modules: Modules,
    pub fault: Option<Named>,
    pub breach: Option<usize>,
}
