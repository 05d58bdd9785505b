//! What time it is.
ghost use Rattle.std.specs.Prelude.{ℕ};

/// A clock that can't fail.
pub trait Clock {
    // It may show this moment.
    ghost shows: { Self → ℕ → Type 0 };

    /// The moment, in nanoseconds from some start. It is one that the clock may show, and may fall from call to call.
    fn now(&self) -> u64
        ensures { shows self.now result };
}
