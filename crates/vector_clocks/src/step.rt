//! A step of a trace.

/// A read or a write of a variable.
#[derive(Clone, Copy, Debug, Drop)]
pub struct Access {
    /// The variable's number. Any number will do.
    pub variable: u32,
    /// Whether it is a write.
    pub writes: bool,
}

/// What one worker did at once. It takes in first, and then hands on: into the channels into which it gives, and those that it sets.
#[derive(Debug, Drop)]
pub struct Step {
    /// The worker's number, below that of the workers.
    pub worker: u32,
    /// The channels from which it takes in.
    pub takes: Vec<u32>,
    /// The channels into which it gives, beside what they have.
    pub gives: Vec<u32>,
    /// The channels that it sets: what they had is gone.
    pub sets: Vec<u32>,
    /// The variable that it reads or writes, if it does.
    pub access: Option<Access>,
}
