//! Go's `sync.WaitGroup`, shared by threads.
ghost use Rattle.ruled_object.specs.Passes.{callers_of, start_of};
ghost use Rattle.protocols.specs.GroupStages.{GroupBegins};

mod calls;
mod go;
mod halts;
mod new;
mod renew;

pub use new::MAX_START;
use ruled_object::{Object, PassOf};
use sync_model::Note;
use wait_cores::GroupCore;

/// A counter that callers wait for to be 0.
///
/// In the words of Go's documentation: a call to `done`, or to `add` with a number below 0, synchronizes before the return
/// of any `wait` call that it unblocks.
#[derive(Drop)]
pub struct WaitGroup<N: Note> {
    pub(crate) object: Object<GroupCore, N>,
    ghost begins: { GroupBegins (callers_of object) (start_of object) },
}

/// The pass of one caller to a `WaitGroup`. It can be renewed as often as its caller likes.
///
/// The group counts nothing for ever. Its counter is 0 to 2^31 - 1, and an `add` that would leave that range is a misuse.
pub type GroupPass<N> = PassOf<GroupCore, N>;
