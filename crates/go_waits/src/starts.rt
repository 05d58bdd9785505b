//! Workers that wait to be started, shared by threads.
ghost use Rattle.starts_core.specs.StartsStages.{StartsBegins};
ghost use Rattle.ruled_object.specs.Passes.{callers_of, start_of};

mod calls;
mod halts;
mod new;
mod renew;
mod within;

use ruled_object::{Object, PassOf};
use starts_core::StartsCore;
use sync_model::Note;

/// Which workers were started. A worker that waits to be started makes its calls once another one has started it, and none where
/// nobody is left who could. It takes the place of the function that `WaitGroup.Go` is given.
///
/// In the words of Go's memory model: the `go` statement that starts a new goroutine is synchronized before the start of the
/// goroutine's execution. So what the note of a starter knew at the start, the note of the started worker knows.
#[derive(Drop)]
pub struct Starts<N: Note> {
    pub(crate) object: Object<StartsCore, N>,
    ghost begins: { StartsBegins (callers_of object) (start_of object) },
}

/// The pass of one worker to a `Starts`. It can be renewed as often as its caller likes: where each worker stands is all that is kept.
pub type StartsPass<N> = PassOf<StartsCore, N>;
