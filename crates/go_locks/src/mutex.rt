//! Go's `sync.Mutex`, shared by threads.
ghost use Rattle.std.specs.Prelude.{◌≡◌};
ghost use Rattle.ruled_object.specs.Passes.{callers_of, start_of};
ghost use Rattle.mutex_core.specs.MutexMachine.{start};

mod calls;
mod halts;
mod new;
mod renew;
mod within;
mod word;

use mutex_core::MutexCore;
use ruled_object::{Object, PassOf};
use sync_model::Note;

/// A mutual exclusion lock for threads, with Go's normal and starvation modes.
///
/// In the words of Go's memory model: for any call to `lock` or `try_lock` that acquires the mutex, and any earlier
/// `unlock` that isn't a misuse, the unlock is synchronized before the lock. So what the note of an unlocker knew, the note
/// of each later holder knows. A try that fails makes no edge.
#[derive(Drop)]
pub struct Mutex<N: Note> {
    object: Object<MutexCore, N>,
    ghost begins: { start_of object ≡ start (callers_of object) },
}

/// The pass of one caller to a `Mutex`.
pub type MutexPass<N> = PassOf<MutexCore, N>;
