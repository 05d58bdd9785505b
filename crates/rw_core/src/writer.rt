//! The writer that keeps newcomers from reading.

/// The announced writer: the one that has the inner mutex.
#[derive(Clone, Copy, PartialEq, Eq)]
pub enum Writer {
    /// There is none.
    Nobody,
    /// This caller waits for the readers that hold the lock.
    Waiting(u32),
    /// It holds the lock. Who it is isn't kept.
    Holding,
}
