//! The calls of the layers above that a pass is still good for.
ghost use Rattle.std.specs.Prelude.{◌≡◌, ℕ, ◌<◌, List, []};
ghost use Rattle.sync_model.specs.Front.{Front};
ghost use Rattle.ruled_object.specs.Growth.{Grows};
ghost use Rattle.ruled_object.specs.Passes.{left_of, own_by, IsOneLess, IsPassOf, IsSpent};

use crate::object::Object;
use crate::pass::PassOf;
use sync_model::{Note, Worded};

impl<M: Worded, N: Note> Object<M, N> {
    /// Takes one off the calls that are left. It makes no step, and adds nothing to the history.
    pub fn spend(&self, pass: &mut PassOf<M, N>)
        requires pass { IsPassOf self.now pass.old }
        requires left { 0 < left_of pass.old }
        ensures pass { IsPassOf self.now pass.new × IsSpent pass.old pass.new }
        ensures less { IsOneLess pass.old pass.new }
        ensures own { own_by pass.new ≡ own_by pass.old }
        ensures nothing { (start : M.State) (front : Front) → Grows M.next M.HALTS start pass.old front [] pass.new front }
    {
        pass.left -= 1;
    }
}
