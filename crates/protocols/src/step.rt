//! How a call goes on after an answer.
use sync_types::Misuse;

/// What the answer to a stage's event means for the call, whose stages are of a type `G` and whose outcomes of a type `O`.
#[derive(Clone, Copy, Drop)]
pub enum Step<G, O> {
    /// The call is done, with this outcome.
    Finished(O),
    /// The call is a misuse.
    Misused(Misuse),
    /// The caller sleeps until it is told to go on, and then makes this stage.
    Waits(G),
    /// The caller makes this stage at once.
    Next(G),
    /// No event of a caller that is allowed the stage gets this answer.
    Never,
}
