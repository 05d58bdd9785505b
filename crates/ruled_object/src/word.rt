//! The word of an object.
ghost use Rattle.std.specs.Prelude.{◌≡◌};
ghost use Rattle.sync_model.specs.Journal.{Begins};
ghost use Rattle.ruled_object.specs.Growth.{IsLawful};
ghost use Rattle.ruled_object.specs.Looks.{WordSays};
ghost use Rattle.ruled_object.specs.Passes.{own_by, seen_by, start_of, turns_of, IsPassOf, SamePass};

use crate::object::Object;
use crate::pass::PassOf;
use std::marker::Brand;
use sync_model::{Note, Worded};

impl<M: Worded, N: Note> Object<M, N> {
    /// What the word says just now, whoever has it. Where its bit of value 2^63 isn't set, it tells of the state that the
    /// history left, which the pass has then seen. The bit is set exactly where one caller's view has the word, and that
    /// of this pass's caller hasn't it. No entry is made.
    pub fn word(&self, pass: &mut PassOf<M, N>) -> u64
        requires pass { IsPassOf self.now pass.old }
        ensures pass { IsPassOf self.now pass.new × SamePass pass.old pass.new }
        ensures own { (own_by pass.new ≡ own_by pass.old) × (turns_of pass.new ≡ turns_of pass.old) }
        ensures seen { Begins (seen_by pass.new) (seen_by pass.old) }
        ensures journal { IsLawful M.next M.HALTS M.frees M.takes (start_of self.now) pass.new }
        ensures says { WordSays M.next M.tells (start_of self.now) result pass.new }
    {
        self.look::<Brand>(&mut pass.seat)
    }
}
