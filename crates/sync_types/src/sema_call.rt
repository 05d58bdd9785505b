//! The calls on a weighted semaphore: `semaphore.Weighted` of `golang.org/x/sync/semaphore`, without contexts.

/// A call on a weighted semaphore. A weight is 1 to the semaphore's size.
#[derive(Clone, Copy, Debug, Drop)]
pub enum SemaCall {
    /// `Acquire`: waits until so much is free and everybody who came before has been served, and then holds it.
    Acquire(u64),
    /// `TryAcquire`: holds so much where that takes no waiting, and tells whether it does.
    TryAcquire(u64),
    /// `Release`: gives so much back, by whichever caller, and serves those who wait in front as long as their weights
    /// fit; where less is held, it is a misuse.
    Release(u64),
}
