use bud_base::Text;
use layer_theory::LayerFault;
use timing_objects::ResolveFault;

/// Why an edit is refused. Names are those of the edit.
#[derive(Debug, Drop)]
pub enum EditFault {
    /// A number of the edit is out of the range that its text has, a made clock has a name that no text gives, or no number
    /// is left for a command.
    Range,
    /// No arc leads from the first pin to the second.
    UnknownArc(Text, Text),
    /// No command has this number.
    UnknownCommand(u32),
    /// The commands would be refused.
    Resolve(ResolveFault),
    /// The layering would be refused.
    Layer(LayerFault),
    NoMemory,
}

/// Why a state can't be begun with.
#[derive(Debug, Drop)]
pub enum SessionFault {
    Resolve(ResolveFault),
    Layer(LayerFault),
    NoMemory,
}
