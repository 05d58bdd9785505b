//! The items of a schedule.

/// An item of a schedule.
#[derive(Clone, Copy, PartialEq, Eq)]
pub enum Turn {
    /// One turn of the worker with this number.
    Worker(u32),
    /// Sets the clock to this moment, in nanoseconds.
    Moment(u64),
}
