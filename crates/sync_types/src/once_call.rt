//! What a call on a `sync.Once` answers, whose only call is `Do`.

/// What `Do` answers.
#[derive(Clone, Copy, Drop)]
pub enum DoReply {
    /// This call ran the function, which added to an int64: the sum.
    Ran(i64),
    /// Another call ran the function, and it has returned.
    Done,
}
