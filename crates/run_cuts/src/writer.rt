//! Where a writer is in its lock of a reader/writer mutex.

/// Where a writer is in its `lock`, by what its caller's list has of it.
#[derive(Clone, Copy, Debug, Drop)]
pub enum WriterStage {
    /// It arrives.
    Arriving,
    /// It waits, and its arrival didn't tell whether at the mutex that writers go through or behind readers.
    Queued,
    /// It waits at that mutex.
    Inner,
    /// It waits behind readers.
    AfterReaders,
}
