//! New calls for a pass.
ghost use Rattle.std.specs.Prelude.{◌≡◌, ℕ, ◌≤◌, List, []};
ghost use Rattle.sync_model.specs.Front.{Front};
ghost use Rattle.ruled_object.specs.Growth.{Grows};
ghost use Rattle.ruled_object.specs.Passes.{IsPassOf};
ghost use Rattle.ruled_object.specs.Renewals.{IsRenewed};

use crate::new::MAX_CALLS;
use crate::object::Object;
use crate::pass::PassOf;
use sync_model::{Note, Worded};

impl<M: Worded, N: Note> Object<M, N> {
    /// Makes a pass good for so many calls from now on. It makes no step, and adds nothing to the history: no law rests on how
    /// many calls are left, so a caller that lives on may renew its pass as often as it likes.
    pub fn renew(&self, pass: &mut PassOf<M, N>, calls: u64)
        requires pass { IsPassOf self.now pass.old }
        requires calls { calls ≤ MAX_CALLS }
        ensures pass { IsPassOf self.now pass.new × IsRenewed calls pass.old pass.new }
        ensures nothing { (start : M.State) (front : Front) → Grows M.next M.HALTS start pass.old front [] pass.new front }
    {
        pass.left = calls;
    }
}
