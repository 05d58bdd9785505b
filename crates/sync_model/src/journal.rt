//! The journal of a shared object: what was done on it, in its one order. It stands in proofs alone: no value of
//! these types but a `Deed` is made.
use std::collections::LinkedList;
use sync_types::Misuse;

/// What one entry of a journal did.
#[derive(Clone, Copy)]
pub enum Deed<E, R> {
    /// The machine took the event, and replied.
    Event(E, R),
    /// The event was answered that this misuse had halted the object, and changed nothing.
    Refused(E, Misuse),
    /// The object was halted. Only the first halt counts.
    Halt(Misuse),
}

/// One entry of a journal.
#[derive(Drop)]
pub struct Entry<E, R> {
    /// The number of the caller who made it.
    pub caller: u32,
    pub deed: Deed<E, R>,
    /// The counts of the caller's front after it: for each caller the number of its shared calls that are known.
    pub front: LinkedList<u64>,
    /// How many entries of the journal the caller had seen before.
    pub knew: u64,
    /// Its number in the one order of all events: the numbers rise along the journal, and along what its caller made.
    pub time: u64,
}
