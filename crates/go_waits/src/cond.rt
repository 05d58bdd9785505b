//! Go's `sync.Cond`, shared by threads, whose L is a `Mutex`.
ghost use Rattle.ruled_object.specs.Passes.{callers_of, start_of};
ghost use Rattle.protocols.specs.CondStages.{CondBegins};

mod calls;
mod halts;
mod new;
mod renew;
mod wait;

use ruled_object::{Object, PassOf};
use sync_model::Note;
use wait_cores::NotifyCore;

/// A point where callers that hold a mutex wait to be notified.
///
/// In the words of Go's documentation: a call to `broadcast` or `signal` synchronizes before any `wait` call that it
/// unblocks.
#[derive(Drop)]
pub struct Cond<N: Note> {
    pub(crate) object: Object<NotifyCore, N>,
    ghost begins: { CondBegins (callers_of object) (start_of object) },
}

/// The pass of one caller to a `Cond`. It can be renewed as often as its caller likes.
///
/// The cond counts its tickets for ever, in 64 bits. At the last number the count stands still, and a ticket with that number is
/// never notified: a run that took a ticket each nanosecond would need five hundred years to come there.
pub type CondPass<N> = PassOf<NotifyCore, N>;
