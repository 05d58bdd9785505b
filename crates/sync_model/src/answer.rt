//! What a call on a shared object answers.

use sync_types::Misuse;

/// The answer of a call on an object that may have been halted.
#[derive(Clone, Copy, Debug, PartialEq, Eq)]
pub enum Answer<R> {
    /// The call was made, and this is the reply of the object's machine.
    Done(R),
    /// This misuse had halted the object before the call was done. What the call did until then stands: a caller that
    /// had queued, say, is queued for ever.
    Halted(Misuse),
}
