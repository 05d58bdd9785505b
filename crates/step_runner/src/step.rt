//! What turns come to.
use sync_types::Misuse;

/// What a turn comes to, or several turns in order.
#[derive(Clone, Copy, PartialEq, Eq)]
pub enum Step {
    /// No event was made.
    Still,
    /// An event was made, and no turn was a misuse.
    Made,
    /// A turn was a misuse, which ends the run.
    Misused(Misuse),
}
