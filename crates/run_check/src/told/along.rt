//! What is known along a worker's list.

/// What stood before a line of a worker's list.
#[derive(Clone, Copy, Debug, Drop, PartialEq, Eq)]
pub struct Along {
    /// How many calls on maps and atomics, steps of cursors among them.
    pub calls: u64,
    /// Which of them began the last cursor.
    pub begin: u64,
    /// What the last call on an atomic answered, as a sum.
    pub sum: i64,
}
