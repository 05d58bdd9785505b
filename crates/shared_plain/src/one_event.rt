//! One event of a caller is one shared call.
ghost use Rattle.std.specs.Prelude.{◌≡◌, ◌≢◌, ℕ, ◌+◌, ◌-◌, ◌^◌, ◌<◌, ◌≤◌, true, IsSome, Some};
ghost use Rattle.sync_model.specs.Note.{SameHome};
ghost use Rattle.sync_model.specs.Shared.{Called, items_of, state_of};
ghost use Rattle.ruled_object.specs.Passes.{start_of};
ghost use Rattle.shared_plain.specs.Fits.{fits};
ghost use Rattle.shared_plain.specs.Marks.{front_by, own_by, seen_of, IsMarkOf};
ghost use Rattle.shared_plain.specs.PlainMachine.{call_of, contents_of};
ghost use Rattle.shared_plain.specs.Plains.{keys_of};
ghost use Rattle.shared_plain.specs.Walks.{StandsAt};

use crate::event::{Answered, Event};
use crate::machine::PlainMachine;
use crate::mark::Mark;
use crate::plain::Plain;
use ruled_object::laws::passes_and_copies;
use std::sync::Wait;
use sync_model::laws::shared_steps::maps_and_atomics_stay;
use sync_model::{Answer, NoNote, SharedReply};

impl Plain {
    // Makes an event that fits, for so many spare entries: one shared call of the note's holder.
    pub(crate) fn event<R: Wait>(
        &self,
        rt: &R,
        mark: &mut Mark,
        event: Event,
        cost: u32,
    ) -> Answered
        requires mark { IsMarkOf self.now mark.old × IsSome (own_by mark.old) }
        requires fits { fits (start_of self.now.object) event ≡ true }
        requires spare { cost ≤ mark.old.spare }
        requires steps { (m b from : ℕ) → event ≡ Event.Next m b from → StandsAt (items_of (own_by mark.old)) m b from }
        ensures home { SameHome IsMarkOf mark.old mark.new }
        ensures called { Called (contents_of (start_of self.now.object)) (call_of event) result.reply cost (state_of own_by front_by seen_of mark.old) (state_of own_by front_by seen_of mark.new) }
        ensures shown { (key value : ℕ) → result.reply ≡ SharedReply.Shown (Some (key, value)) → key < keys_of self.now }
    {
        maps_and_atomics_stay();
        passes_and_copies::<PlainMachine, NoNote>();
        let mut nothing = NoNote::at(mark.stamp.same());
        mark.spare -= cost;
        mark.done = one_more(mark.done);
        match self
            .object
            .call(rt, &(), &mut mark.pass, &mut nothing, event)
        {
            Answer::Done(Some(answered)) => {
                mark.stamp = nothing.time();
                answered
            }
            Answer::Done(None) => unreachable!(),
            Answer::Halted(_) => unreachable!(),
        }
    }
}

// A count of calls after one more: it stays at the type's last value.
fn one_more(done: u64) -> u64
    ensures { result ≢ 2 ^ 64 - 1 → (done ≢ 2 ^ 64 - 1) × (result ≡ done + 1) }
{
    done.saturating_add(1)
}
