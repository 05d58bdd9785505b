//! The calls on shared maps and atomics, as their history and a caller's own list have them. Both stand in proofs alone.
use std::collections::LinkedList;
use sync_types::{AtomicCall, AtomicReply, MapCall, MapReply};

/// A shared call: a call on a map, whose keys are numbers, a step of a cursor over one, or a call on an atomic.
#[derive(Clone, Copy)]
pub enum SharedCall {
    /// A call on a map, named by its place among the maps.
    Map { map: u32, call: MapCall<u32> },
    /// A cursor over this map begins.
    Begin { map: u32 },
    /// One step of the cursor that the caller's shared call of this number began.
    Next { begin: u64 },
    /// A call on an atomic, named by its place among the atomics.
    Atomic { atomic: u32, call: AtomicCall },
}

/// What a shared call answers.
#[derive(Clone, Copy, Debug)]
pub enum SharedReply {
    /// The reply of a map.
    Map(MapReply),
    /// The cursor stands before its first pair.
    Begun,
    /// The next key with its value, or `None` where there is none left.
    Shown(Option<(u32, u64)>),
    /// The reply of an atomic.
    Atomic(AtomicReply),
}

/// One entry of the shared history, which is the order of all calls that set a map or an atomic, whoever made them. Which
/// calls are entries, the one-thread objects say: a load never is one, and a store always.
#[derive(Clone, Copy)]
pub struct SharedEntry {
    /// The number of the caller who made it.
    pub caller: u32,
    pub call: SharedCall,
    pub reply: SharedReply,
}

/// One shared call in the list of its caller.
#[derive(Drop)]
pub struct Item {
    pub call: SharedCall,
    pub reply: SharedReply,
    /// Its place: how many entries of the shared history lie before the call. Of a call of a cursor it is the reach: what
    /// the call shows was so after this many entries, or fewer.
    pub place: u64,
    /// Whether the call is itself an entry of the shared history, which then has its place as its number.
    pub entry: bool,
    /// The front of the caller's note before the call: for each caller the number of its shared calls that were known.
    pub front: LinkedList<u64>,
}
