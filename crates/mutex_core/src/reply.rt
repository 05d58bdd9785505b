//! What a mutex answers. A ticket is the number of the caller that it was given to, since a caller
//! waits at one place at a time.
use sync_types::Misuse;

/// The answer to an arrival.
#[derive(Clone, Copy, PartialEq, Eq)]
pub enum Arrival {
    /// The caller has the mutex.
    Acquired,
    /// The caller waits at the tail of the queue, with this ticket.
    Queued(u32),
}

/// The answer to a waiter that goes on.
#[derive(Clone, Copy, PartialEq, Eq)]
pub enum Resumption {
    /// The caller has the mutex.
    Acquired,
    /// A newcomer was faster: the caller waits at the front of the queue.
    Requeued,
}

/// The answer to an unlock.
#[derive(Clone, Copy, PartialEq, Eq)]
pub enum Unlocking {
    /// Nobody was told.
    Free,
    /// The mutex is free, and the waiter with this ticket was told to try for it.
    Woke(u32),
    /// The mutex is kept for the waiter with this ticket.
    Handed(u32),
    /// The mutex wasn't locked.
    Misuse(Misuse),
}

/// The answer to an event.
#[derive(Clone, Copy, PartialEq, Eq)]
pub enum MutexReply {
    /// To an arrival.
    Arrived(Arrival),
    /// To a try: whether the caller has the mutex.
    Tried(bool),
    /// To an unlock.
    Unlocked(Unlocking),
    /// To a waiter that goes on.
    Resumed(Resumption),
    /// The caller isn't where the event needs it, or is no caller of this mutex. Nothing changed.
    Still,
}
