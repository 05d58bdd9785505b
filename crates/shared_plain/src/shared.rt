//! Plain maps and atomics are shared ones: each call takes the turn of their object, and its place is where it gives the turn
//! back.
ghost use Rattle.shared_plain.specs.CursorsStand.{Stands};
ghost use Rattle.shared_plain.specs.Marks.{seen_of};
ghost use Rattle.shared_plain.specs.Plains.{caller_count, kinds_of, maps_of, Takes};
ghost use Rattle.shared_plain.specs.Staying.{stays};

use crate::cursor::{Cursor, behind, in_shown, next_number};
use crate::event::Event;
use crate::laws::starts_empty;
use crate::machine::PlainMachine;
use crate::mark::Mark;
use crate::plain::Plain;
use crate::reply_parts::{cost_of, in_atomic, in_map};
use ruled_object::laws::passes_and_copies;
use std::sync::Wait;
use sync_model::laws::shared_steps::{
    fronts_stay_known, histories_go_on, maps_and_atomics_stay, one_more_call_keeps_the_law,
    what_was_so_stays_so,
};
use sync_model::{Caller, NoNote, Note, Shared};
use sync_types::{AtomicCall, AtomicReply, MapCall, MapReply};

impl Shared for Plain {
    type Mark = Mark;

    type Cursor = Cursor;

    ghost kinds = { kinds_of };

    ghost maps = { maps_of };

    ghost count = { caller_count };

    ghost takes = { Takes };

    ghost home_of = { λ plain. plain };

    ghost seen = { seen_of };

    ghost stands = { Stands };

    fn home(&self) -> &Plain {
        self
    }

    fn map_call<R: Wait>(
        &self,
        rt: &R,
        caller: &mut Caller<Mark>,
        map: u32,
        call: MapCall<u32>,
    ) -> MapReply {
        starts_empty();
        let cost = cost_of(&call);
        let answered = self.event(rt, &mut caller.note, Event::Map { map, call }, cost);
        in_map(answered.reply)
    }

    fn atomic_call<R: Wait>(
        &self,
        rt: &R,
        caller: &mut Caller<Mark>,
        atomic: u32,
        call: AtomicCall,
    ) -> AtomicReply {
        starts_empty();
        let answered = self.event(rt, &mut caller.note, Event::Atomic { atomic, call }, 0);
        in_atomic(answered.reply)
    }

    fn begin<R: Wait>(&self, rt: &R, caller: &mut Caller<Mark>, map: u32) -> Cursor {
        starts_empty();
        let begin = next_number(rt, caller.note.done);
        self.event(rt, &mut caller.note, Event::Begin { map }, 0);
        Cursor {
            map,
            begin,
            from: 0,
        }
    }

    fn next<R: Wait>(
        &self,
        rt: &R,
        caller: &mut Caller<Mark>,
        cursor: &mut Cursor,
    ) -> Option<(u32, u64)> {
        starts_empty();
        let answered = self.event(rt, &mut caller.note, cursor.step(), 0);
        let shown = in_shown(answered.reply);
        cursor.from = behind(cursor.from, shown, self.keys);
        shown
    }

    fn settle(&self, callers: &mut [Caller<Mark>]) {
        starts_empty();
        passes_and_copies::<PlainMachine, NoNote>();
        fronts_stay_known();
        histories_go_on();
        maps_and_atomics_stay();
        one_more_call_keeps_the_law();
        what_was_so_stays_so();
        let mut all = self.bring_all(callers);
        self.object.look_at_all(&mut all);
        self.hand_all_back(&mut all, callers);
    }

    ghost stays = { stays };
}
