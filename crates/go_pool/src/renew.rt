//! New calls for a pool's pass.
ghost use Rattle.std.specs.Prelude.{◌≤◌};
ghost use Rattle.go_pool.specs.Pools.{IsPassOf};
ghost use Rattle.go_pool.specs.Renewals.{IsRenewed};

use crate::pool::{Pool, PoolPass};
use ruled_object::MAX_CALLS;
use sync_model::Note;

impl<N: Note> Pool<N> {
    /// Makes a pass good for so many calls from now on. It is no event of any part, and all else of the pass stays as it is.
    pub fn renew(&self, pass: &mut PoolPass<N>, calls: u64)
        requires pass { IsPassOf self.now pass.old }
        requires calls { calls ≤ MAX_CALLS }
        ensures { IsPassOf self.now pass.new × IsRenewed calls pass.old pass.new }
    {
        pass.left = calls;
    }
}
