//! What a seat at a shared table knows. It stands in proofs alone: no value of these types is made but `Begin`
//! and `Leaf`.
use crate::begin::Begin;
use std::collections::LinkedList;
use sync_model::{Item, SharedEntry};

/// A caller that a seat stands for.
pub struct Own {
    /// All shared calls of the caller, in its own order, and their numbers in the one order of all events.
    pub items: LinkedList<Item>,
    pub times: LinkedList<u64>,
    /// Where its room of words that nobody else uses begins.
    pub next: u64,
    /// How many units of words the room has.
    pub spare: u64,
    /// What the first words of the room hold. The others hold 0.
    pub draft: LinkedList<u64>,
}

/// A seat stands at a node, on its way to a key.
pub struct Walk {
    pub map: u32,
    pub key: u32,
    pub node: u64,
    pub level: u32,
    /// How long the history was, at least, when the root was read.
    pub since: u64,
}

/// An entry of the trie whose words a seat knows.
#[derive(Clone, Copy, Drop)]
pub struct Leaf {
    pub place: u64,
    pub key: u64,
    pub value: u64,
}

/// The lock of a node, which a seat holds.
pub struct Lock {
    pub node: u64,
    /// The node's parent, or 0.
    pub up: u64,
    /// A key on whose path the node stands.
    pub key: u32,
    pub level: u32,
    /// A slot that was read under the lock, and its word.
    pub found: Option<(u64, u64)>,
    /// So many of the first slots are known to be empty.
    pub empty: u64,
    /// The node is marked dead, and not cut off yet.
    pub dead: bool,
}

/// A node that was cut off: an empty node that was pruned, or a root that a clear replaced.
pub struct CutNode {
    pub node: u64,
    /// Its map, its level there, and a key on whose path it stood.
    pub map: u32,
    pub level: u32,
    pub key: u32,
    /// The history before the step that cut it off. Its length is the moment of the cut.
    pub before: LinkedList<SharedEntry>,
    /// Its 18 words at that moment.
    pub words: LinkedList<u64>,
}

/// Where the cursor of a seat stands.
pub struct Spot {
    /// The number of the call that began it.
    pub begin: u64,
    pub map: u32,
    /// How long the history was when the root was read, and the front of the caller's note at the begin.
    pub since: u64,
    pub front: LinkedList<u64>,
    /// The nodes from the root down to where it stands, and in each the next slot to read, or the one that was entered.
    pub nodes: LinkedList<u64>,
    pub slots: LinkedList<u64>,
    /// The keys that were shown.
    pub shown: LinkedList<u64>,
}

/// How a seat stands to the gate of a map's writers.
pub enum Gate {
    Outside,
    /// It is counted as a writer of the map.
    Inside { map: u32 },
    /// It has closed the gate, and knows that no writer is inside, or doesn't know.
    Closed { map: u32, alone: bool },
}

/// What a seat knows.
pub struct View {
    /// Whether the seat counts: of one that was taken in by another nothing is said.
    pub live: bool,
    pub begin: Begin,
    /// A beginning of the history: all that the seat has seen of it.
    pub seen: LinkedList<SharedEntry>,
    /// Other beginnings of the history, of seats that were taken in.
    pub heard: LinkedList<LinkedList<SharedEntry>>,
    /// For each caller the number of its shared calls that are known.
    pub front: LinkedList<u64>,
    /// The number of its caller's last event, as the seat was told it when its call began, and then that of the call.
    pub time: u64,
    /// The number of the first caller that the seat stands for.
    pub number: u32,
    /// The callers that it stands for, in order of number.
    pub owns: LinkedList<Own>,
    pub walk: Option<Walk>,
    pub leaf: Option<Leaf>,
    pub lock: Option<Lock>,
    /// The lock of the node's parent.
    pub upper: Option<Lock>,
    pub gate: Gate,
    pub spot: Option<Spot>,
    /// The nodes that it has cut off, and that seats have which were taken in.
    pub cut: LinkedList<CutNode>,
}
