//! What a call on a once answers.

/// What `Once::do_once` answers.
#[derive(Debug, Drop, PartialEq, Eq)]
pub enum OnceRun<E> {
    /// This call ran the function, which answered this.
    Ran(Result<(), E>),
    /// The function was run before.
    Already,
}
