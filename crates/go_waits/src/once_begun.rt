//! What the beginning of a once answers.

/// The right, and the duty, to run the function of a once: it has to be spent by `Once::end`.
pub struct Running {
    pub(crate) caller: u32,
}

/// What `Once::begin` answers.
pub enum OnceBegun<T> {
    /// The caller is to run the function, and then to end it.
    Run(Running),
    /// The function has ended, with this.
    Already(T),
}
