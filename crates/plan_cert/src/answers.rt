use bud_base::{ItemId, NodeId};

/// What a check of a certificate finds.
#[derive(Clone, Copy, Debug, PartialEq, Eq)]
pub enum CertAnswer {
    /// The certificate holds, and its budgets weigh this.
    Holds(i128),
    /// It doesn't, and this is its first fault.
    Fault(CertFault),
}

/// Why a certificate doesn't hold. The faults come in this order, and within one kind the first in order is given.
#[derive(Clone, Copy, Debug, PartialEq, Eq)]
pub enum CertFault {
    /// The policy has the first version, and the certificate the second.
    Version(u32, u32),
    /// The line there isn't the problem's.
    Shape(CertPlace),
    /// The item's budget is below its least or above its greatest.
    Bounds(ItemId),
    /// The item's budget isn't over before the arrival at its last node.
    Arrival(ItemId),
    /// The arrival at the node of this start is before its offset.
    Start(u32),
    /// The arrival at the node of this end is past its required time.
    End(u32),
    /// The flow there is below 0.
    NegativeFlow(CertPlace),
    /// As much doesn't come into the node as goes out.
    Balance(NodeId),
    /// The budgets' weight, and the first that differs from it of the written weight and the flow's value.
    Weight(i128, i128),
}

/// A line of a certificate, by its number among those of its kind.
#[derive(Clone, Copy, Debug, PartialEq, Eq)]
pub enum CertPlace {
    Class(u32),
    Node(u32),
    Item(u32),
    Start(u32),
    End(u32),
    /// One of the lists has another length than the problem's.
    Count,
}
