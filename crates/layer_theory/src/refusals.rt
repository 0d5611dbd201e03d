use bud_base::Text;

/// Why a policy doesn't fit a design, or a layering passes a limit. Names are those of the policy's lines.
#[derive(Debug, Drop)]
pub enum LayerFault {
    /// No arc leads from the first pin to the second.
    UnknownArc(Text, Text),
    /// No instance has the name, or a block's is no plain instance.
    UnknownInstance(Text),
    /// The second block equals, holds or lies in the first.
    NestedBlocks(Text, Text),
    UnknownClock(Text),
    /// The limit on states, and one more.
    TooManyStates(u64),
    /// The limit on items, and one more.
    TooManyItems(u64),
    NoMemory,
}
