//! Go's `sync.RWMutex`, shared by threads.
ghost use Rattle.std.specs.Prelude.{◌≡◌};
ghost use Rattle.ruled_object.specs.Passes.{callers_of, start_of};
ghost use Rattle.rw_core.specs.RwMachine.{start};

mod halts;
mod new;
mod read;
mod renew;
mod write;

use ruled_object::{Object, PassOf};
use rw_core::RwCore;
use sync_model::Note;

/// A reader/writer mutual exclusion lock for threads: any number of readers hold it, or one writer. A reader that comes
/// while a writer waits queues behind it.
///
/// In the words of Go's memory model: each `unlock` and each `r_unlock` that isn't a misuse is synchronized before each
/// later `lock` and `r_lock`, and before each later try that succeeds. So what the note of an unlocker knew, the note of
/// each later holder knows. A try that fails makes no edge.
#[derive(Drop)]
pub struct RwMutex<N: Note> {
    object: Object<RwCore, N>,
    ghost begins: { start_of object ≡ start (callers_of object) },
}

/// The pass of one caller to an `RwMutex`. It can be renewed as often as its caller likes.
///
/// The lock counts the readers that hold it, in 64 bits. A caller may read-lock again and again without an unlock; at 2^64 - 1 the
/// count stands still.
pub type RwPass<N> = PassOf<RwCore, N>;
