//! All callers' passes, brought together and handed back.
ghost use Rattle.std.specs.Prelude.{◌≡◌, ℕ, List, Some, length, slice_get};
ghost use Rattle.sync_model.specs.declared.caller.Caller.{Caller};
ghost use Rattle.sync_model.specs.Shared.{AreAllCallers};
ghost use Rattle.ruled_object.specs.Assembled.{Brought, HandsBack};
ghost use Rattle.ruled_object.specs.Passes.{number_of};
ghost use Rattle.shared_plain.specs.declared.mark.Mark.{Mark};
ghost use Rattle.shared_plain.specs.Marks.{own_by, IsMarkOf};
ghost use Rattle.shared_plain.specs.PlainHistory.{Step};
ghost use Rattle.shared_plain.specs.Plains.{caller_count};
ghost use Rattle.shared_plain.specs.Settling.{passes_in, PlainPass, AreSameMarks, IsBack};

use crate::machine::PlainMachine;
use crate::mark::Mark;
use crate::plain::Plain;
use ruled_object::AssemblyOf;
use ruled_object::laws::passes_and_copies;
use sync_model::{Caller, NoNote};

impl Plain {
    // What all callers' passes know together. Until they are handed back, no caller makes a call.
    pub(crate) fn bring_all(&self, callers: &mut [Caller<Mark>]) -> AssemblyOf<PlainMachine, NoNote>
        requires { AreAllCallers IsMarkOf own_by self.now callers.old (caller_count self.now) }
        ensures all { Brought self.now.object (passes_in callers.old) result }
        ensures callers { AreSameMarks callers.old callers.new }
    {
        passes_and_copies::<PlainMachine, NoNote>();
        let mut all = self.object.assembly();
        for caller in callers.iter_mut() {
            self.object.bring(&mut all, &mut caller.note.pass);
        }
        all
    }

    // Hands each caller its pass back, which has then seen the whole history.
    pub(crate) fn hand_all_back(
        &self,
        all: &mut AssemblyOf<PlainMachine, NoNote>,
        callers: &mut [Caller<Mark>],
    )
        requires all { (journal : List Step) × (passes : List PlainPass) × HandsBack self.now.object 0 journal passes all.old }
        requires count { length callers.old ≡ caller_count self.now }
        requires order { (i : ℕ) (caller : Caller Mark) → slice_get callers.old i ≡ Some caller → number_of caller.note.pass ≡ i }
        ensures callers { AreSameMarks callers.old callers.new }
        ensures back { (journal : List Step) (passes : List PlainPass) → HandsBack self.now.object 0 journal passes all.old → (i : ℕ) (caller : Caller Mark) → slice_get callers.new i ≡ Some caller → IsBack self.now journal passes i caller.note }
    {
        for caller in callers.iter_mut() {
            self.object.hand_back(all, &mut caller.note.pass);
        }
    }
}
