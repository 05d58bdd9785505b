//! Where a caller is at a mutex.

/// A caller's place. Who has the mutex isn't kept: its holder is `Out`.
#[derive(Clone, Copy, PartialEq, Eq)]
pub enum Place {
    /// It doesn't wait.
    Out,
    /// It waits in the queue.
    Waiting,
    /// It was told to try for the mutex, and is out of the queue.
    Woken,
    /// The mutex is kept for it, at the front of the queue.
    Handed,
}
