use bud_base::PinId;

/// Why a register is refused.
#[derive(Clone, Copy, Debug)]
pub enum RegisterFault {
    /// The clock pin hasn't one launch edge.
    MixedEdge(PinId),
    /// A delay leaves a data pin of the instance of this number.
    Latch(u32),
}
