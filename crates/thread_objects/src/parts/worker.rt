//! Where a worker makes its calls.
use sync_model::Note;
use sync_outside::{At, Clock};

/// A worker of a run, and what its calls need of the outside.
#[derive(Drop)]
pub struct Worker<'a, N: Note, C: Clock> {
    /// The home of the run's notes, and its clock.
    pub at: At<'a, N, C>,
    /// How many workers the run has.
    pub workers: u32,
    /// The worker's number, from 0.
    pub number: u32,
}
