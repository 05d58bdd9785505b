//! New calls for the pass of a stored function.
ghost use Rattle.std.specs.Prelude.{◌≤◌};
ghost use Rattle.ruled_object.specs.Renewals.{IsRenewed};
ghost use Rattle.go_waits.specs.OnceValues.{once_of};
ghost use Rattle.go_waits.specs.Onces.{IsPassOf};

use super::OnceValue;
use crate::once::OncePass;
use ruled_object::MAX_CALLS;
use sync_model::Note;

impl<T: Copy, F: FnOnce() -> T + Drop, N: Note> OnceValue<T, F, N> {
    /// Makes a pass good for so many calls from now on. It is no event, and all else of the pass stays as it is.
    pub fn renew(&self, pass: &mut OncePass<T, N>, calls: u64)
        requires pass { IsPassOf (once_of self.now) pass.old }
        requires calls { calls ≤ MAX_CALLS }
        ensures { IsPassOf (once_of self.now) pass.new × IsRenewed calls pass.old pass.new }
    {
        self.once.renew(pass, calls);
    }
}
