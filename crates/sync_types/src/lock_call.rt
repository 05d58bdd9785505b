//! The calls on locks: `sync.Mutex` and `sync.RWMutex`.

/// A call on a mutex.
#[derive(Clone, Copy, Debug, Drop)]
pub enum MutexCall {
    /// `Lock`: waits until the mutex is the caller's.
    Lock,
    /// `Unlock`: gives the mutex up. Any caller may, not the one alone that locked it; where the mutex
    /// isn't locked, it is a misuse.
    Unlock,
    /// `TryLock`: locks the mutex where that takes no waiting, and tells whether it did.
    TryLock,
}

/// A call on a reader/writer mutex.
#[derive(Clone, Copy, Debug, Drop)]
pub enum RwMutexCall {
    /// `Lock`: waits until the caller alone holds the mutex, as its writer.
    Lock,
    /// `Unlock`: the writer gives the mutex up; where no writer holds it, it is a misuse.
    Unlock,
    /// `TryLock`: becomes the writer where that takes no waiting, and tells whether it did.
    TryLock,
    /// `RLock`: waits until no writer holds the mutex or waits for it, and then holds it as a reader.
    RLock,
    /// `RUnlock`: a reader gives the mutex up; where no reader holds it, it is a misuse.
    RUnlock,
    /// `TryRLock`: becomes a reader where that takes no waiting, and tells whether it did.
    TryRLock,
}

/// What a call on a lock answers.
#[derive(Clone, Copy, Debug, Drop)]
pub enum LockReply {
    /// The call returned.
    Done,
    /// Whether a try took the lock.
    Tried(bool),
}
