//! Go's `sync.Once`, shared by threads, which keeps what its function came to.
ghost use Rattle.ruled_object.specs.Passes.{callers_of, start_of};
ghost use Rattle.protocols.specs.OnceStages.{OnceBegins};

mod calls;
mod halts;
mod new;
mod renew;

use ruled_object::{Object, PassOf};
use sync_model::Note;
use wait_cores::OnceCore;

/// A function that is run once, whoever comes first, and what it came to.
///
/// In the words of Go's documentation: the return from the function synchronizes before the return from any call on the
/// once.
#[derive(Drop)]
pub struct Once<T: Copy, N: Note> {
    pub(crate) object: Object<OnceCore<T>, N>,
    ghost begins: { OnceBegins (callers_of object) (start_of object) },
}

/// The pass of one caller to a `Once`. It can be renewed as often as its caller likes: a once counts nothing.
pub type OncePass<T, N> = PassOf<OnceCore<T>, N>;
