//! What a checker of a record answers.

/// A part of what makes a record explain its run, in the order in which a checker asks them.
#[derive(Clone, Copy, Debug, PartialEq, Eq)]
pub enum Clause {
    /// Each list spells the calls of its worker's script, one after the other.
    Spell,
    /// One legal history has all calls on maps and atomics, each at its place.
    Legal,
    /// Each worker knows its own calls, forgets nothing, and comes behind what it knows.
    Front,
    /// Each cursor shows what was in its map while it went on.
    Range,
    /// Each journal follows its object's machine, and has the entries that the lists have.
    Machine,
    /// Who acquires knows what those knew that released before.
    Edge,
    /// In a run that is done each script is at its end.
    End,
    /// Nothing is halted but behind a misuse, and the first misuse ends the run.
    Stop,
    /// The report is that of the outcome.
    Report,
}

/// Whether a record explains its run, and if it doesn't, the first clause that fails.
#[derive(Clone, Copy, Debug, PartialEq, Eq)]
pub enum Verdict {
    Yes,
    No(Clause),
}
