//! Through what one turn hands on and another takes in.
use sync_types::Name;

/// A channel of a trace, as specs/Channels.antt lists them. Objects are named by their places.
#[derive(Drop)]
pub(crate) enum Channel {
    MutexUnlock(usize),
    WriterUnlock(usize),
    ReaderUnlock(usize),
    /// Of a worker's ticket at a cond.
    Notice { cond: usize, worker: u32 },
    /// Of a wait group's counter, or of what is held of a semaphore.
    Lowering(usize),
    /// Of a once, or of a group of flights.
    FunctionEnd(usize),
    /// Of the put of this number, where so many were before it.
    PutItem { pool: usize, number: u64 },
    Start(u32),
    Atomic(usize),
    MapKey { map: usize, key: Name },
    /// Of each key of a map: through it a `clear` hands on.
    EachKey(usize),
}
