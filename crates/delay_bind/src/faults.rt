use bud_base::Text;
use thiserror::Error;

/// Why a delay file doesn't fit a flat design. Names are in printed form.
#[derive(Debug, Drop, Error)]
pub enum BindFault {
    /// The instance of a cell's entry isn't there.
    #[error("unknown instance")]
    UnknownInstance(Text),
    /// The instance is of another module than the entry's cell type says.
    #[error("wrong cell")]
    WrongCell(Text),
    /// A delay or check stands at a plain instance.
    #[error("not a leaf")]
    NotALeaf(Text),
    /// The pin isn't there, or is of the wrong direction.
    #[error("unknown pin")]
    UnknownPin(Text),
    /// No wires lead from the first pin to the last, or the last lies on a ring of wires.
    #[error("not one net")]
    NotOneNet(Text, Text),
    /// The clock pin hasn't one launch edge.
    #[error("mixed edge")]
    MixedEdge(Text),
    /// A delay leaves a data pin of the instance.
    #[error("latch")]
    Latch(Text),
    /// The delay from the first pin to the last is negative.
    #[error("negative delay")]
    NegativeDelay(Text, Text),
    /// Less than nothing is left of a delay for the wire into the pin.
    #[error("negative rest")]
    NegativeRest(Text),
    #[error("memory")]
    NoMemory,
}
