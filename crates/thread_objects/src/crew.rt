//! The workers of a run.
use sync_model::Note;

/// How many workers a run has, and the home of their notes.
#[derive(Drop)]
pub struct Crew<'a, N: Note> {
    pub home: &'a N::Home,
    /// From 1 on.
    pub workers: u32,
}
