//! What callers do to the maps and atomics, and what is answered.

use sync_model::SharedReply;
use sync_types::{AtomicCall, MapCall};

/// A call on a map or an atomic, or a step of a cursor over a map.
#[derive(Clone, Copy)]
pub enum Event {
    /// A call on the map of this number.
    Map { map: u32, call: MapCall<u32> },
    /// A cursor over this map begins.
    Begin { map: u32 },
    /// A step of the cursor that its caller's shared call `begin` began: the least key of the map that is at least `from`.
    Next { map: u32, begin: u64, from: u32 },
    /// A call on the atomic of this number.
    Atomic { atomic: u32, call: AtomicCall },
}

/// What an event answers, and whether it is an entry of the shared history.
#[derive(Clone, Copy, Debug)]
pub struct Answered {
    pub reply: SharedReply,
    pub entry: bool,
}
