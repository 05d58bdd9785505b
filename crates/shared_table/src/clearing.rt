//! Clearing a map. The caller closes the gate of the map's writers, waits until none is inside, and writes a new empty root
//! into the map's root word: this one step clears the map, whatever it had. Then it opens the gate. Lookups go on all the
//! while, in the new nodes or in the old ones.
ghost use Rattle.std.specs.Prelude.{◌≡◌, ◌<◌, ◌≤◌, true, false, None, IsSome};
ghost use Rattle.std.specs.Option.{ForSome};
ghost use Rattle.sync_model.specs.declared.item.SharedCall.TheVariants as calls;
ghost use Rattle.sync_model.specs.declared.item.SharedReply.TheVariants as replies;
ghost use Rattle.sync_types.specs.declared.map_object.MapCall.TheVariants.{Clear};
ghost use Rattle.sync_types.specs.declared.map_object.MapReply.TheVariants.{Done};
ghost use Rattle.sync_model.specs.Note.{SameHome};
ghost use Rattle.sync_model.specs.Shared.{Called, state_of};
ghost use Rattle.table_rule.specs.declared.view.Gate.TheVariants.{Closed};
ghost use Rattle.table_rule.specs.Clearing.{HasClosed, Clears};
ghost use Rattle.table_rule.specs.Making.{HasUnit};
ghost use Rattle.table_words.specs.Seats.{begin_of, IsSeatOf};
ghost use Rattle.table_rule.specs.Views.{at_time};
ghost use Rattle.table_rule.specs.Walking.{told_at, IsFree};
ghost use Rattle.table_rule.specs.Writing.{holding, HasRoomWithin};
ghost use Rattle.shared_table.specs.Notes.{front_by, own_by, seen_by, IsLawfulFor, IsNoteOf};
ghost use Rattle.shared_table.specs.Tables.{maps_of, first_of};

use crate::note::{SharedNote, time_of};
use crate::table::SharedTable;
use atomic_table::Seat;
use crossbeam_utils::Backoff;
use stamps::Stamp;
use std::sync::Wait;
use table_words::View;
use trie_nodes::layout::NODE_WORDS;

impl SharedTable {
    /// Clears a map, and uses up one unit of its caller's room, whatever the map had. The call is an entry of the history,
    /// placed at the one write of the map's root word. It waits while another caller has closed the map's gate, and then until
    /// the writers inside have gone out. A lookup that is under way goes on, in the nodes that are cut off: it answers what
    /// its key had just before the clear, or earlier.
    pub fn clear_map<R: Wait>(&self, rt: &R, note: &mut SharedNote, map: u32)
        requires note { IsNoteOf self.now note.old × IsSome (own_by note.old) }
        requires map { map < maps_of self.now }
        requires spare { ForSome (own_by note.old) (λ holding. 1 ≤ holding.spare) }
        ensures home { SameHome IsNoteOf note.old note.new }
        ensures called { Called (first_of self.now) (calls.Map map Clear) (replies.Map Done) 1 (state_of own_by front_by seen_by note.old) (state_of own_by front_by seen_by note.new) }
        ensures lawful { IsLawfulFor self.now note.new }
    {
        self.clear(rt, &mut note.seat, map, note.next, note.stamp.same());
        note.next += NODE_WORDS as u64;
        note.spare -= 1;
        note.stamp = time_of(&note.seat);
    }

    // The same, by a seat whose caller's room begins here, and whose caller's last event has this number.
    fn clear<R: Wait>(&self, rt: &R, seat: &mut Seat<(), View>, map: u32, next: u64, time: Stamp)
        requires table { IsSeatOf self.now.words seat.old }
        requires free { IsFree (begin_of self.now.words) seat.old.me }
        requires unit { HasUnit seat.old.me.0.owns next }
        requires map { map < maps_of self.now }
        ensures table { seat.new.table_id ≡ seat.old.table_id }
        ensures made { Clears map (told_at time.time seat.old.me) seat.new.me }
        ensures room { HasRoomWithin seat.new.me.0 }
    {
        self.close(rt, seat, map, time);
        self.wait_alone(rt, seat, map);
        self.words.replace_root(seat, map, next);
        self.words.open(seat, map);
    }

    // Closes the map's gate, for a caller whose last event has this number. It waits while another has closed it.
    fn close<R: Wait>(&self, rt: &R, seat: &mut Seat<(), View>, map: u32, time: Stamp)
        requires table { IsSeatOf self.now.words seat.old }
        requires free { IsFree (begin_of self.now.words) seat.old.me }
        requires map { map < maps_of self.now }
        ensures table { seat.new.table_id ≡ seat.old.table_id }
        ensures closed { (seat.new.me.1 ≡ seat.old.me.1) × (seat.new.me.0 ≡ holding (at_time seat.old.me.0 time.time) (Closed map false) None None) }
    {
        let backoff = Backoff::new();
        for _ in rt.forever() {
            if self.words.try_close(rt, seat, map, time.same()) {
                return;
            }
            backoff.snooze();
        }
        unreachable!()
    }

    // Waits until no writer is inside the gate that the seat has closed.
    fn wait_alone<R: Wait>(&self, rt: &R, seat: &mut Seat<(), View>, map: u32)
        requires table { IsSeatOf self.now.words seat.old }
        requires closed { HasClosed (begin_of self.now.words) seat.old.me map false }
        requires map { map < maps_of self.now }
        ensures table { seat.new.table_id ≡ seat.old.table_id }
        ensures alone { (seat.new.me.1 ≡ seat.old.me.1) × (seat.new.me.0 ≡ holding seat.old.me.0 (Closed map true) None None) }
    {
        let backoff = Backoff::new();
        for _ in rt.forever() {
            if self.words.look_inside(seat, map) {
                return;
            }
            backoff.snooze();
        }
        unreachable!()
    }
}
