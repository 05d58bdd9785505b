//! Where a caller is at a reader/writer lock.

/// A caller's place. Who has the lock isn't kept: a holder whose wait has ended is `Out`.
#[derive(Clone, Copy, PartialEq, Eq)]
pub enum Place {
    /// It doesn't wait.
    Out,
    /// A reader that waits for a writer, or a writer in the inner mutex's queue.
    Queued,
    /// A writer that the inner mutex woke.
    Woken,
    /// A writer that was handed the inner mutex.
    Handed,
    /// The announced writer, which waits for the readers that hold the lock.
    Waiting,
    /// A writer that the last reader gave the lock to, and that hasn't left since.
    Granted,
    /// A reader that a writer's unlock gave the lock to, and that hasn't left since.
    Admitted,
}
