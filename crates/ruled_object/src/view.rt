//! What a seat at the table of an object knows. It stands in proofs alone: no value of these types is made.
use std::collections::LinkedList;
use sync_model::Entry;

/// Where a seat stands with the word and the turn.
pub enum Stage {
    /// It doesn't have the word.
    Idle,
    /// It has the word, and makes the object: nothing lies in the slot yet.
    Making,
    /// It has the word, and the slot.
    Taken,
    /// It has the turn too.
    Deep,
}

/// What a seat has of one caller that it stands for.
pub struct Own<E, R> {
    /// All entries of the caller.
    pub entries: LinkedList<Entry<E, R>>,
    /// How often the caller took the turn.
    pub turns: u64,
}

/// What a seat knows.
pub struct View<E, R> {
    pub stage: Stage,
    /// A beginning of the history: all that the seat has seen of it.
    pub seen: LinkedList<Entry<E, R>>,
    /// How long that was before the seat took the word.
    pub knew: u64,
    /// Other beginnings of the history, of seats that were joined to this one.
    pub heard: LinkedList<LinkedList<Entry<E, R>>>,
    /// The number of the first caller that the seat stands for.
    pub number: u32,
    /// What it has of each caller that it stands for, in order of number.
    pub owns: LinkedList<Own<E, R>>,
}
