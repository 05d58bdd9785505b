//! What the maps and atomics contain when all calls have returned.
ghost use Rattle.std.specs.Prelude.{◌≡◌, ◌<◌, ◌≤◌, IfOk, length, map};
ghost use Rattle.sync_types.specs.SequentialAtomic.{kind_of};
ghost use Rattle.sync_model.specs.SharedHistory.{first_contents};
ghost use Rattle.sync_model.specs.Shared.{AreAllCallers};
ghost use Rattle.sync_model.specs.EndsOfHistory.{HasKeysBelow, AreEnds};
ghost use Rattle.shared_plain.specs.Marks.{own_by, seen_of, IsMarkOf};
ghost use Rattle.shared_plain.specs.PlainMachine.{contents_of};
ghost use Rattle.shared_plain.specs.Plains.{caller_count, keys_of, kinds_of, maps_of};
ghost use Rattle.shared_plain.specs.Settling.{passes_in, room_of};

use crate::laws::starts_empty;
use crate::machine::PlainMachine;
use crate::mark::Mark;
use crate::plain::Plain;
use crate::room::EndsRoom;
use crate::state::PlainState;
use ruled_object::PassOf;
use ruled_object::laws::passes_and_copies;
use std::alloc::{AllocError, Global};
use sync_model::laws::shared_steps::{
    fronts_stay_known, histories_go_on, maps_and_atomics_stay, one_more_call_keeps_the_law,
    what_was_so_stays_so,
};
use sync_model::{Caller, NoNote};

impl EndsRoom {
    /// Room for so many callers.
    pub fn new(alloc: Global, callers: u32) -> Result<Self, AllocError>
        ensures { IfOk result (λ room. callers ≤ room_of room) }
    {
        Ok(EndsRoom {
            passes: Vec::with_capacity(alloc, callers as usize)?,
        })
    }
}

impl Plain {
    /// Ends the maps and atomics, with all their callers in order of number, and gives what they contain after the whole
    /// history: one that begins with what each caller has seen, and that is lawful with all their calls. It takes no memory,
    /// and waits for nobody. There is a map and an atomic of each number, of its type, and all keys that are there are below the maps' limit. `PlainState::push_ends` gives what a report
    /// shows of them.
    pub fn ends(self, callers: Vec<Caller<Mark>>, room: EndsRoom) -> PlainState
        requires callers { AreAllCallers IsMarkOf own_by self callers.items (caller_count self) }
        requires room { caller_count self ≤ room_of room }
        ensures ends { AreEnds own_by seen_of (first_contents (maps_of self) (kinds_of self)) callers.items (contents_of result) }
        ensures maps { length result.maps ≡ maps_of self }
        ensures kinds { map kind_of result.numbers ≡ kinds_of self }
        ensures keys { HasKeysBelow (keys_of self) (contents_of result) }
    {
        starts_empty();
        passes_and_copies::<PlainMachine, NoNote>();
        fronts_stay_known();
        histories_go_on();
        maps_and_atomics_stay();
        one_more_call_keeps_the_law();
        what_was_so_stays_so();
        let passes = passes_of(callers, room);
        let Plain { object, .. } = self;
        object.finish(passes)
    }
}

// The passes of callers, in their order.
fn passes_of(callers: Vec<Caller<Mark>>, room: EndsRoom) -> Vec<PassOf<PlainMachine, NoNote>>
    requires { length callers.items ≤ room_of room }
    ensures { result.items ≡ passes_in callers.items }
{
    let EndsRoom { mut passes } = room;
    for caller in callers {
        let Caller { note } = caller;
        let Mark { pass, .. } = note;
        passes.push_reserved(pass);
    }
    passes
}
