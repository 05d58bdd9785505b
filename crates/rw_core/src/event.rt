//! What a caller can do at a reader/writer lock.

/// One step of a caller at a reader/writer lock. Moments are nanoseconds.
#[derive(Clone, Copy, PartialEq, Eq)]
pub enum RwEvent {
    /// `RLock` begins.
    ReadArrive,
    /// `TryRLock`.
    ReadTry,
    /// `RUnlock`.
    ReadUnlock,
    /// `Lock` begins at the moment `now`.
    WriteArrive { now: u64 },
    /// `TryLock`.
    WriteTry,
    /// A writer that the inner mutex woke or handed on goes on with its `Lock` at the moment `now`.
    WriteWoken { now: u64 },
    /// `Unlock`.
    WriteUnlock,
    /// A writer that was granted the lock, or a reader that was admitted, ends its wait.
    Leave,
}
