//! What a reader/writer lock answers.
use sync_types::Misuse;

/// The answer to an arrival.
#[derive(Clone, Copy, PartialEq, Eq)]
pub enum Arrival {
    /// The caller has the lock.
    Acquired,
    /// The caller waits.
    Queued,
}

/// The answer to a writer that goes on.
#[derive(Clone, Copy, PartialEq, Eq)]
pub enum Resumption {
    /// The caller has the lock.
    Acquired,
    /// The caller is the next writer, and waits for the readers that hold the lock.
    Queued,
    /// A newcomer was faster: the caller waits at the front of the inner mutex's queue.
    Requeued,
}

/// The answer to an unlock.
#[derive(Clone, Copy, PartialEq, Eq)]
pub enum Unlocking {
    /// The lock was given back.
    Done,
    /// The lock wasn't held in this way.
    Misuse(Misuse),
}

/// The answer to an event.
#[derive(Clone, Copy, PartialEq, Eq)]
pub enum RwReply {
    /// To an arrival, of a reader or of a writer.
    Arrived(Arrival),
    /// To a try: whether the caller has the lock.
    Tried(bool),
    /// To an unlock, of a reader or of a writer.
    Unlocked(Unlocking),
    /// To a writer that goes on.
    Resumed(Resumption),
    /// To a leave: the caller has the lock since it was granted or admitted.
    Left,
    /// The caller isn't where the event needs it, or is no caller of this lock. Nothing changed.
    Still,
}
