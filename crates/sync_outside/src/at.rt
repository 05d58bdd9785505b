//! What a call on a shared object needs of the outside.
use crate::clock::Clock;
use sync_model::Note;

/// Where a call on a shared object is made: the home of its caller's notes, and the clock that it reads.
#[derive(Drop)]
pub struct At<'a, N: Note, C: Clock> {
    /// Where the notes of the run belong.
    pub home: &'a N::Home,
    /// The clock that every caller of the run reads.
    pub clock: &'a C,
}
