//! New calls for a worker's pass.
ghost use Rattle.std.specs.Prelude.{◌≤◌};
ghost use Rattle.ruled_object.specs.Renewals.{IsRenewed};
ghost use Rattle.go_waits.specs.Startings.{IsPassOf};

use super::{Starts, StartsPass};
use ruled_object::MAX_CALLS;
use sync_model::Note;

impl<N: Note> Starts<N> {
    /// Makes a pass good for so many calls from now on. It is no event, and all else of the pass stays as it is.
    pub fn renew(&self, pass: &mut StartsPass<N>, calls: u64)
        requires pass { IsPassOf self.now pass.old }
        requires calls { calls ≤ MAX_CALLS }
        ensures { IsPassOf self.now pass.new × IsRenewed calls pass.old pass.new }
    {
        self.object.renew(pass, calls);
    }
}
