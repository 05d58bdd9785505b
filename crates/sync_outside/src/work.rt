//! A job that a thread does.
use std::sync::Wait;

/// What one thread is to do, from its start to its end.
pub trait Work: Send + Drop {
    /// What the job comes to.
    type Out: Send + Drop;

    // The job may be done.
    ghost ready: { Self → Type 0 };

    // The job may come to this result.
    ghost gives: { Self → Self.Out → Type 0 };

    /// Does the job. It may wait for other threads; what it promises holds where it returns.
    fn work<R: Wait>(self, rt: &R) -> Self::Out
        requires { ready self }
        ensures { gives self result };
}
