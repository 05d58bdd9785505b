//! The calls on a `sync.Pool`, and their replies.

/// A call on a pool. Items are 0 to 2^63 - 1.
#[derive(Clone, Copy, Drop)]
pub enum PoolCall {
    /// `Put`: keeps an item for a later `Get`.
    Put(u64),
    /// `Get`: takes an item that was put, or a new one, 0.
    Get,
    /// A cleanup, which in Go comes with the garbage collection: an item that is kept over two of them is
    /// dropped.
    Sweep,
}

/// What a call on a pool answers.
#[derive(Clone, Copy, Drop)]
pub enum PoolCallReply {
    /// The call is done, and says nothing more.
    Done,
    /// An item that was put.
    Put(u64),
    /// A new item, 0, since there was none to take.
    New,
}
