//! What the two plans say.

/// A chain of new nodes that takes the place of an entry in its slot. Each node but the last has the next one in the slot that it
/// has for both keys, and nothing else. The last has both entries.
#[derive(Clone, Copy, Drop, PartialEq, Eq)]
pub struct Expansion {
    /// How many nodes the chain has, 1 to 7: one more than the nibbles that the two paths have in common from its first node on.
    pub nodes: u32,
    /// The slot of the last node for the entry that stood there.
    pub held_slot: u32,
    /// The slot of the last node for the new entry.
    pub key_slot: u32,
}

/// The slot that is to be emptied, so that an empty node is cut off.
#[derive(Clone, Copy, Drop, PartialEq, Eq)]
pub struct Pruning {
    /// The place of the node's parent.
    pub parent: u64,
    /// The slot of the parent, 0 to 15, that holds the node.
    pub slot: u32,
}
