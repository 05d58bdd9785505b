//! What a caller can do at a mutex.

/// One step of a caller at a mutex. Moments are nanoseconds.
#[derive(Clone, Copy, PartialEq, Eq)]
pub enum MutexEvent {
    /// `Lock` begins at the moment `now`.
    Arrive { now: u64 },
    /// `TryLock`.
    Try,
    /// `Unlock`.
    Unlock,
    /// A waiter that was woken or handed the mutex goes on with its `Lock` at the moment `now`.
    Woken { now: u64 },
}
