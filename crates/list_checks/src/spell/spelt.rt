//! What a list of items has from a place on.
use sync_types::Misuse;

/// A part of a call that was found in a list.
#[derive(Drop)]
pub struct Spelt<O> {
    /// The place behind the last of its items.
    pub end: usize,
    /// What it comes to.
    pub outcome: O,
}

/// Why nothing is found behind a part of a call.
#[derive(Clone, Copy, Debug, Drop)]
pub enum Stop {
    /// The part is this misuse, and ends before this place.
    Misused(usize, Misuse),
    /// The part was cut short by a halt, and ends before this place.
    Halted(usize, Misuse),
    /// The list ends within the part.
    Within,
    /// No list that goes on from this one has the part there.
    Wrong,
}

/// What was found.
pub type Found<O> = Result<Spelt<O>, Stop>;
