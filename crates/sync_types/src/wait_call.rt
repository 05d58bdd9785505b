//! The calls on objects to wait at: `sync.Cond` and `sync.WaitGroup`.

/// A call on a cond.
#[derive(Clone, Copy, Drop)]
pub enum CondCall {
    /// `Wait`: gives the cond's mutex up, waits until it is notified, and locks the mutex again. Where the
    /// mutex isn't locked, it is a misuse.
    Wait,
    /// `Signal`: notifies the caller that has waited longest, if one waits.
    Signal,
    /// `Broadcast`: notifies all callers that wait.
    Broadcast,
}

/// A call on a wait group.
#[derive(Clone, Copy, Drop)]
pub enum WaitGroupCall {
    /// `Add`: adds this amount, -10,000 to 10,000, to the counter, and at 0 lets all go that wait. A
    /// counter below 0, or above 2^31 - 1, is a misuse.
    Add(i32),
    /// `Done`: adds -1.
    Done,
    /// `Wait`: waits until the counter is 0. A counter that isn't 0 at the return, or another caller that
    /// waits by then, is a misuse.
    Wait,
}
