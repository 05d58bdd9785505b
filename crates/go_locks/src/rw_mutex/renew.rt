//! New calls for the pass of a reader/writer lock.
ghost use Rattle.std.specs.Prelude.{◌≤◌};
ghost use Rattle.ruled_object.specs.Renewals.{IsRenewed};
ghost use Rattle.go_locks.specs.RwMutexes.{IsPassOfRwMutex};

use super::{RwMutex, RwPass};
use ruled_object::MAX_CALLS;
use sync_model::Note;

impl<N: Note> RwMutex<N> {
    /// Makes a pass good for so many calls from now on. It is no event, and all else of the pass stays as it is.
    pub fn renew(&self, pass: &mut RwPass<N>, calls: u64)
        requires pass { IsPassOfRwMutex self.now pass.old }
        requires calls { calls ≤ MAX_CALLS }
        ensures { IsPassOfRwMutex self.now pass.new × IsRenewed calls pass.old pass.new }
    {
        self.object.renew(pass, calls);
    }
}
