//! What a once keeps of what its function came to.
ghost use Rattle.std.specs.Prelude.{◌≡◌};

/// A type of what a once keeps of an outcome `O` of its function. Whoever ends the function says what is kept, which only the
/// function's return tells.
pub trait Keeps<O> {
    ghost kept: { O → Self };

    fn kept_of(outcome: &O) -> Self
        ensures { result ≡ kept outcome.now };
}

/// Go's `Once` keeps nothing.
impl<E> Keeps<Result<(), E>> for () {
    ghost kept = { λ outcome. tt };

    fn kept_of(_outcome: &Result<(), E>) {}
}
