//! Cursors over the maps of a table, which show a map's pairs one by one, as Go's `Range` does. A step of a cursor waits for
//! nobody, can't be refused, and takes no memory.
ghost use Rattle.std.specs.Prelude.{◌≡◌, ◌≢◌, ℕ, ◌<◌, [], ◌∷◌, Some, None};
ghost use Rattle.sync_model.specs.declared.item.SharedCall.TheVariants as calls;
ghost use Rattle.sync_model.specs.declared.item.SharedReply.TheVariants as replies;
ghost use Rattle.sync_model.specs.Shared.{items_of};
ghost use Rattle.table_rule.specs.declared.view.Spot.{Spot};
ghost use Rattle.table_words.specs.Seats.{begin_of, IsSeatOf};
ghost use Rattle.table_rule.specs.Views.{at_time, made_by, view_state};
ghost use Rattle.table_rule.specs.Walking.{IsFree};
ghost use Rattle.shared_table.specs.Ranging.{AreWithin, IsRanging, MovesTo, ShowsNext, HasPassedAll, IsCursor, RangesOn};
ghost use Rattle.trie_nodes.specs.PlaceLists.{slots_of};
ghost use Rattle.trie_nodes.specs.Places.{last_of, steps_left};

use atomic_table::Seat;
use stamps::Stamp;
use std::mem;
use table_words::{TableWords, View};
use trie_nodes::{Place, SLOTS, Slot};

/// A walk over the keys of a map. Between two steps it has a seat of its own, which keeps what the walk knows of the nodes where it
/// stands: whatever others change, and whatever part of the map is cut off, it goes on there.
#[derive(Drop)]
pub struct TableCursor {
    pub(crate) seat: Seat<(), View>,
    pub(crate) place: Place,
}

/// What one move of a cursor came to.
#[derive(Clone, Copy, Drop)]
pub(crate) enum Move {
    /// It stands elsewhere.
    On,
    /// Its step is made, and shows this.
    Shown(Option<(u32, u64)>),
}

impl TableCursor {
    /// The seat of a caller whose last event has this number begins a cursor over a map, at the first slot of the map's root.
    pub fn begin(words: &TableWords, seat: &mut Seat<(), View>, map: u32, time: Stamp) -> Self
        requires table { IsSeatOf words.now seat.old }
        requires free { IsFree (begin_of words.now) seat.old.me }
        requires map { map < (begin_of words.now).maps }
        ensures table { seat.new.table_id ≡ seat.old.table_id }
        ensures begun { (seat.new.me.1 ≡ seat.old.me.1) × RangesOn words.now result map (made_by seat.old.me.0.owns) (calls.Begin map) replies.Begun (at_time seat.old.me.0 time.time) seat.new.me.0 }
    {
        let root = words.begin_at(seat, map, time);
        TableCursor {
            seat: words.unmount(seat),
            place: Place::first(root),
        }
    }

    /// The seat of a caller whose last event has this number makes a step of its cursor, whose seat it takes in for the step. The cursor goes on from where it stands: from
    /// slot to slot, the low ones first, and down into each node that it finds before it goes on behind it. The step ends at the first
    /// entry, which it shows, or where the cursor has passed all slots of the root that it began at.
    pub fn next(
        &mut self,
        words: &TableWords,
        seat: &mut Seat<(), View>,
        time: Stamp,
    ) -> Option<(u32, u64)>
        requires table { IsSeatOf words.now seat.old }
        requires free { IsFree (begin_of words.now) seat.old.me }
        requires cursor { (map : ℕ) × (begin : ℕ) × IsCursor words.now self.old map begin (items_of (view_state seat.old.me.0).own) }
        ensures table { seat.new.table_id ≡ seat.old.table_id }
        ensures slots { seat.new.me.1 ≡ seat.old.me.1 }
        ensures stepped { (map begin : ℕ) → IsCursor words.now self.old map begin (items_of (view_state seat.old.me.0).own)
            → RangesOn words.now self.new map begin (calls.Next begin) (replies.Shown result) (at_time seat.old.me.0 time.time) seat.new.me.0 }
        ensures passed { result ≡ None → HasPassedAll self.new }
        ensures ended { HasPassedAll self.old → result ≡ None }
    {
        let copy = words.unmount(seat);
        words.mount(seat, mem::replace(&mut self.seat, copy), time);
        let shown = step(words, seat, &mut self.place);
        self.seat = words.unmount(seat);
        shown
    }
}

// A step of a seat's cursor.
fn step(words: &TableWords, seat: &mut Seat<(), View>, place: &mut Place) -> Option<(u32, u64)>
    requires table { IsSeatOf words.now seat.old }
    requires cursor { (z : Spot) × IsRanging (begin_of words.now) seat.old.me z place.old }
    ensures table { seat.new.table_id ≡ seat.old.table_id }
    ensures stepped { (seat.new.me.1 ≡ seat.old.me.1) × ((z : Spot) → seat.old.me.0.spot ≡ Some z → ShowsNext z result place.new seat.old.me.0 seat.new.me.0) }
    ensures words { AreWithin seat.old.me.0 place.new }
    ensures passed { result ≡ None → slots_of place.new ≡ 16 ∷ [] }
    ensures ended { slots_of place.old ≡ 16 ∷ [] → result ≡ None }
{
    loop {
        if let Move::Shown(shown) = move_on(words, seat, place) {
            return shown;
        }
    }
}

// One move of a seat's cursor.
fn move_on(words: &TableWords, seat: &mut Seat<(), View>, place: &mut Place) -> Move
    requires table { IsSeatOf words.now seat.old }
    requires cursor { (z : Spot) × IsRanging (begin_of words.now) seat.old.me z place.old }
    ensures table { seat.new.table_id ≡ seat.old.table_id }
    ensures moved { (seat.new.me.1 ≡ seat.old.me.1) × ((z : Spot) → seat.old.me.0.spot ≡ Some z → MovesTo z result place.new seat.old.me.0 seat.new.me.0) }
    ensures words { AreWithin seat.old.me.0 place.new }
    ensures less { result ≡ Move.On → steps_left (slots_of place.new) < steps_left (slots_of place.old) }
    ensures passed { result ≡ Move.Shown None → slots_of place.new ≡ 16 ∷ [] }
    ensures ended { slots_of place.old ≡ 16 ∷ [] → result ≡ Move.Shown None }
{
    if place.slot() < SLOTS {
        return move_in(words, seat, place);
    }
    if place.depth() == 1 {
        words.show_none(seat);
        return Move::Shown(None);
    }
    words.rise(seat);
    place.go_up();
    Move::On
}

// A seat's cursor reads the slot where it stands.
fn move_in(words: &TableWords, seat: &mut Seat<(), View>, place: &mut Place) -> Move
    requires table { IsSeatOf words.now seat.old }
    requires cursor { (z : Spot) × IsRanging (begin_of words.now) seat.old.me z place.old }
    requires slot { last_of (slots_of place.old) < 16 }
    ensures table { seat.new.table_id ≡ seat.old.table_id }
    ensures moved { (seat.new.me.1 ≡ seat.old.me.1) × ((z : Spot) → seat.old.me.0.spot ≡ Some z → MovesTo z result place.new seat.old.me.0 seat.new.me.0) }
    ensures words { AreWithin seat.old.me.0 place.new }
    ensures less { result ≡ Move.On → steps_left (slots_of place.new) < steps_left (slots_of place.old) }
    ensures some { result ≢ Move.Shown None }
{
    match words.sweep(seat, place.node(), place.slot()) {
        Slot::Empty => {
            place.go_on();
            Move::On
        }
        Slot::Node(below) => {
            place.go_down(below);
            Move::On
        }
        Slot::Entry(entry) => {
            place.go_on();
            let (key, value) = words.read_pair_uncounted(seat, entry);
            Move::Shown(Some((key as u32, value)))
        }
    }
}
