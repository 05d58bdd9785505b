//! A call that writes a map: in by the map's gate, down to the node whose slot for the key has no node, its lock, a second look, one
//! write, and out again.
ghost use Rattle.std.specs.Prelude.{◌≡◌, ℕ, ◌<◌, ◌≤◌, Some, None, IsSome, MatchBool, MatchOption, length};
ghost use Rattle.table_rule.specs.declared.view.Gate.TheVariants.{Inside};
ghost use Rattle.table_rule.specs.declared.view.Walk.{Walk};
ghost use Rattle.table_rule.specs.Writing.{holding, lock_at, IsWriter, HasRoomWithin};
ghost use Rattle.sync_types.specs.SequentialMap.{map_key};
ghost use Rattle.std.specs.Option.{ForSome};
ghost use Rattle.sync_model.specs.declared.item.SharedCall.TheVariants as calls;
ghost use Rattle.sync_model.specs.declared.item.SharedReply.TheVariants as replies;
ghost use Rattle.sync_model.specs.Note.{SameHome};
ghost use Rattle.sync_model.specs.Shared.{Called, cost_of, state_of};
ghost use Rattle.shared_table.specs.Notes.{front_by, own_by, seen_by, IsLawfulFor, IsNoteOf};
ghost use Rattle.table_rule.specs.Making.{HasUnit, leaf_value, Publishes, StandsLocked};
ghost use Rattle.table_rule.specs.Values.{HasSmallValues};
ghost use Rattle.table_words.specs.Seats.{begin_of, IsSeatOf};
ghost use Rattle.shared_table.specs.Drafts.{IsPoised};
ghost use Rattle.shared_table.specs.MapCalls.{AnswersAndPrunes, IsEnd, IsReached, IsSight, IsWriting, MadeLocked, MakesAndPrunes, MayHaveMade, StillLocked};
ghost use Rattle.sync_types.specs.KeyCalls.{key_after};
ghost use Rattle.shared_table.specs.Tables.{maps_of, first_of};
ghost use Rattle.table_rule.specs.Views.{at_time};
ghost use Rattle.table_rule.specs.Walking.{standing, walk_at, given_by, HasWords, Affords, IsFree, AtEntry, IsUncounted};

use crate::changes::{Change, reply_of};
use crate::note::{SharedNote, time_of};
use crate::publish::{remove, show_chain, show_entry};
use crate::table::SharedTable;
use atomic_table::Seat;
use crossbeam_utils::Backoff;
use stamps::Stamp;
use std::sync::Wait;
use sync_types::{MapCall, MapReply};
use table_words::{Leaf, View};
use trie_nodes::layout::ENTRY_WORDS;
use trie_nodes::{LEVELS, Slot};

/// Where the way down to a key ended.
pub(crate) enum Reached {
    /// The call was answered, since it is no entry of the history.
    Answered(MapReply),
    /// At the node whose slot for the key has no node.
    Stands { node: u64, level: u32 },
}

impl Reached {
    // Where a walk ends at a node whose slot gives the key this.
    fn at(call: MapCall<u32>, held: Option<u64>, node: u64, level: u32) -> Reached
        requires { IsSome (map_key call) }
        ensures { IsEnd call held node level result }
    {
        match Change::of(call, held) {
            Change::Keep => Reached::Answered(reply_of(call, held)),
            Change::Put(_) | Change::Remove => Reached::Stands { node, level },
        }
    }
}

/// What a seat saw of its key's slot under a lock.
pub(crate) enum Sight {
    /// The slot has become a node.
    Below,
    /// It is empty, or has this entry.
    Shows(Option<Leaf>),
}

/// A call that was made.
#[derive(Drop)]
pub(crate) struct Paid {
    pub(crate) reply: MapReply,
    /// How many words of its caller's room it used: the two of an entry, or those of a chain. Where it only read, none.
    pub(crate) words: u64,
}

// The value of a key, by the entry in its slot.
fn value_in(leaf: Option<Leaf>, key: u32) -> Option<u64>
    ensures { result ≡ leaf_value leaf key }
{
    match leaf {
        Some(entry) if entry.key == key as u64 => Some(entry.value),
        _ => None,
    }
}

impl SharedTable {
    /// Makes a call on a key of a map that may change it, and uses up one unit of its caller's room, whatever it answers. A call
    /// that is an entry of the history is placed at its one write, and any other at the slot's read that showed its answer. It
    /// waits while another caller has the lock of the node where the key belongs, or has closed the map's gate.
    pub fn change_map<R: Wait>(
        &self,
        rt: &R,
        note: &mut SharedNote,
        map: u32,
        key: u32,
        call: MapCall<u32>,
    ) -> MapReply
        requires note { IsNoteOf self.now note.old × IsSome (own_by note.old) }
        requires map { map < maps_of self.now }
        requires call { (map_key call ≡ Some key) × (cost_of call ≡ 1) }
        requires values { HasSmallValues call }
        requires spare { ForSome (own_by note.old) (λ holding. cost_of call ≤ holding.spare) }
        ensures home { SameHome IsNoteOf note.old note.new }
        ensures called { Called (first_of self.now) (calls.Map map call) (replies.Map result) (cost_of call) (state_of own_by front_by seen_by note.old) (state_of own_by front_by seen_by note.new) }
        ensures lawful { IsLawfulFor self.now note.new }
    {
        let made = self.make(
            rt,
            &mut note.seat,
            call,
            map,
            key,
            note.number,
            note.next,
            note.stamp.same(),
        );
        note.next += made.words;
        note.spare -= 1;
        note.stamp = time_of(&note.seat);
        made.reply
    }

    // Looks at the key's slot under the lock of the node where the seat stands.
    fn see_held(
        &self,
        seat: &mut Seat<(), View>,
        call: MapCall<u32>,
        map: u32,
        key: u32,
        node: u64,
        level: u32,
        _next: u64,
    ) -> Sight
        requires table { IsSeatOf self.now.words seat.old }
        requires call { (map_key call ≡ Some key) × (cost_of call ≡ 1) }
        requires values { HasSmallValues call }
        requires unit { HasUnit seat.old.me.0.owns _next }
        requires stands { (up : ℕ) × StandsLocked (begin_of self.now.words) seat.old.me (walk_at map key node level (length seat.old.me.0.seen)) up }
        requires words { HasWords seat.old.me.0 node 18 }
        requires level { level < 8 }
        ensures table { seat.new.table_id ≡ seat.old.table_id }
        ensures sight { (seat.new.me.1 ≡ seat.old.me.1) × IsSight (begin_of self.now.words) call map key node level _next result seat.old.me.0 seat.new.me.0 }
    {
        match self.words.look_held(seat, call, map, key, node, level) {
            Slot::Node(_) => Sight::Below,
            Slot::Empty => Sight::Shows(None),
            Slot::Entry(place) => Sight::Shows(Some(self.words.read_leaf(seat, place))),
        }
    }

    // Lets the key have a value. Tells how many words of the room it used.
    fn put(
        &self,
        seat: &mut Seat<(), View>,
        call: MapCall<u32>,
        map: u32,
        key: u32,
        node: u64,
        level: u32,
        next: u64,
        value: u64,
        leaf: Option<Leaf>,
    ) -> u64
        requires table { IsSeatOf self.now.words seat.old }
        requires poised { IsPoised (begin_of self.now.words) seat.old.me.0 call map key node level next }
        requires after { key_after call (leaf_value leaf key) ≡ Some value }
        requires leaf { (seat.old.me.0.leaf ≡ leaf) × ((e : Leaf) → leaf ≡ Some e → HasWords seat.old.me.0 e.place 2) }
        requires words { HasWords seat.old.me.0 node 18 }
        requires level { level < 8 }
        ensures table { seat.new.table_id ≡ seat.old.table_id }
        ensures published { Publishes map call result seat.old.me seat.new.me }
    {
        match leaf {
            Some(entry) if entry.key != key as u64 => show_chain(
                &self.words,
                seat,
                call,
                map,
                key,
                node,
                level,
                next,
                value,
                &entry,
            ),
            _ => {
                show_entry(&self.words, seat, call, map, key, node, level, next, value);
                ENTRY_WORDS as u64
            }
        }
    }

    // Makes a call under the lock of the node where the seat stands. It can't where the slot has become a node.
    fn make_held(
        &self,
        seat: &mut Seat<(), View>,
        call: MapCall<u32>,
        map: u32,
        key: u32,
        node: u64,
        level: u32,
        next: u64,
    ) -> Option<Paid>
        requires table { IsSeatOf self.now.words seat.old }
        requires call { (map_key call ≡ Some key) × (cost_of call ≡ 1) }
        requires values { HasSmallValues call }
        requires unit { HasUnit seat.old.me.0.owns next }
        requires stands { (up : ℕ) × StandsLocked (begin_of self.now.words) seat.old.me (walk_at map key node level (length seat.old.me.0.seen)) up }
        requires words { HasWords seat.old.me.0 node 18 }
        requires level { level < 8 }
        ensures table { seat.new.table_id ≡ seat.old.table_id }
        ensures slots { seat.new.me.1 ≡ seat.old.me.1 }
        ensures made { MatchOption result (StillLocked node seat.old.me.0 seat.new.me.0) (λ made. MadeLocked map call key node level made.reply made.words seat.old.me.0 seat.new.me.0) }
    {
        match self.see_held(seat, call, map, key, node, level, next) {
            Sight::Below => None,
            Sight::Shows(leaf) => {
                let held = value_in(leaf, key);
                let words = match Change::of(call, held) {
                    Change::Keep => 0,
                    Change::Remove => {
                        remove(&self.words, seat, call, map, key, node, level, next);
                        ENTRY_WORDS as u64
                    }
                    Change::Put(value) => {
                        self.put(seat, call, map, key, node, level, next, value, leaf)
                    }
                };
                Some(Paid {
                    reply: reply_of(call, held),
                    words,
                })
            }
        }
    }

    // Comes in as a writer of the map, for a caller whose last event has this number. It waits while the gate is closed.
    pub(crate) fn come_in<R: Wait>(&self, rt: &R, seat: &mut Seat<(), View>, map: u32, time: Stamp)
        requires table { IsSeatOf self.now.words seat.old }
        requires free { IsFree (begin_of self.now.words) seat.old.me }
        requires map { map < maps_of self.now }
        ensures table { seat.new.table_id ≡ seat.old.table_id }
        ensures inside { (seat.new.me.1 ≡ seat.old.me.1) × (seat.new.me.0 ≡ holding (at_time seat.old.me.0 time.time) (Inside map) None None) }
    {
        let backoff = Backoff::new();
        for _ in rt.forever() {
            if self.words.try_come_in(rt, seat, map, time.same()) {
                return;
            }
            backoff.snooze();
        }
        unreachable!()
    }

    // Takes the lock of the node where the seat stands, and waits while another has it. It can't where the node is dead.
    fn take_lock<R: Wait>(&self, rt: &R, seat: &mut Seat<(), View>, node: u64, caller: u32) -> bool
        requires table { IsSeatOf self.now.words seat.old }
        requires writer { (w : Walk) × (w.node ≡ node) × IsWriter (begin_of self.now.words) seat.old.me w }
        requires words { HasWords seat.old.me.0 node 18 }
        requires caller { caller ≡ seat.old.me.0.number }
        ensures table { seat.new.table_id ≡ seat.old.table_id }
        ensures slots { seat.new.me.1 ≡ seat.old.me.1 }
        ensures lock { (w : Walk) → seat.old.me.0.walk ≡ Some w → MatchBool result ((up : ℕ) × (seat.new.me.0 ≡ holding seat.old.me.0 seat.old.me.0.gate (Some (lock_at w up)) None)) (seat.new.me.0 ≡ seat.old.me.0) }
    {
        let backoff = Backoff::new();
        for _ in rt.forever() {
            if self.words.is_dead(seat, node) {
                return false;
            }
            if self.words.try_lock(seat, node, caller) {
                return true;
            }
            backoff.snooze();
        }
        unreachable!()
    }

    // Makes a call at the node where the seat stands. It can't where the slot has become a node, or the node is dead.
    pub(crate) fn make_at<R: Wait>(
        &self,
        rt: &R,
        seat: &mut Seat<(), View>,
        call: MapCall<u32>,
        map: u32,
        key: u32,
        node: u64,
        level: u32,
        caller: u32,
        next: u64,
    ) -> Option<Paid>
        requires table { IsSeatOf self.now.words seat.old }
        requires call { (map_key call ≡ Some key) × (cost_of call ≡ 1) }
        requires values { HasSmallValues call }
        requires unit { HasUnit seat.old.me.0.owns next }
        requires writer { IsWriter (begin_of self.now.words) seat.old.me (walk_at map key node level (length seat.old.me.0.seen)) × (seat.old.me.0.leaf ≡ None) }
        requires words { HasWords seat.old.me.0 node 18 }
        requires level { level < 8 }
        requires caller { caller ≡ seat.old.me.0.number }
        ensures table { seat.new.table_id ≡ seat.old.table_id }
        ensures made { (seat.new.me.1 ≡ seat.old.me.1) × MayHaveMade map call result seat.old.me.0 seat.new.me.0 }
    {
        if !self.take_lock(rt, seat, node, caller) {
            return None;
        }
        let made = self.make_held(seat, call, map, key, node, level, next);
        match made {
            Some(_) => self.leave(rt, seat, call, key, node, level, caller),
            None => self.words.unlock(seat, node),
        }
        made
    }

    // The seat of a writer inside the gate reads the entry that it knows.
    fn read_entry_inside(&self, seat: &mut Seat<(), View>, place: u64, key: u32) -> Option<u64>
        requires table { IsSeatOf self.now.words seat.old }
        requires begin { seat.old.me.0.begin ≡ (begin_of self.now.words) }
        requires entry { AtEntry seat.old.me place }
        requires no_load { IsUncounted seat.old.me.0 }
        requires words { HasWords seat.old.me.0 place 2 }
        ensures table { seat.new.table_id ≡ seat.old.table_id }
        ensures left { (seat.new.me.1 ≡ seat.old.me.1) × (seat.new.me.0 ≡ standing seat.old.me.0 seat.old.me.0.walk None) }
        ensures value { (l : Leaf) → seat.old.me.0.leaf ≡ Some l → result ≡ given_by l key }
    {
        let (held, value) = self.words.read_pair_uncounted(seat, place);
        if held == key as u64 {
            Some(value)
        } else {
            None
        }
    }

    // Goes down from the map's root to the node whose slot for the key has no node. The call may be answered there.
    pub(crate) fn descend(
        &self,
        seat: &mut Seat<(), View>,
        call: MapCall<u32>,
        map: u32,
        key: u32,
    ) -> Reached
        requires table { IsSeatOf self.now.words seat.old }
        requires call { (map_key call ≡ Some key) × Affords (cost_of call) seat.old.me.0.owns }
        requires writing { IsWriting (begin_of self.now.words) seat.old.me map }
        requires map { map < maps_of self.now }
        ensures table { seat.new.table_id ≡ seat.old.table_id }
        ensures reached { (seat.new.me.1 ≡ seat.old.me.1) × IsReached call map key result seat.old.me.0 seat.new.me.0 }
    {
        let mut node = self.words.enter_uncounted(seat, map, key);
        for level in 0..LEVELS {
            match self.words.look_uncounted(seat, call, map, key, node, level) {
                Slot::Empty => return Reached::at(call, None, node, level),
                Slot::Node(below) => node = below,
                Slot::Entry(place) => {
                    let held = self.read_entry_inside(seat, place, key);
                    return Reached::at(call, held, node, level);
                }
            }
        }
        unreachable!()
    }

    // Makes a call inside the map's gate.
    pub(crate) fn make_inside<R: Wait>(
        &self,
        rt: &R,
        seat: &mut Seat<(), View>,
        call: MapCall<u32>,
        map: u32,
        key: u32,
        caller: u32,
        next: u64,
    ) -> Paid
        requires table { IsSeatOf self.now.words seat.old }
        requires call { (map_key call ≡ Some key) × (cost_of call ≡ 1) }
        requires values { HasSmallValues call }
        requires unit { HasUnit seat.old.me.0.owns next }
        requires writing { IsWriting (begin_of self.now.words) seat.old.me map }
        requires map { map < maps_of self.now }
        requires caller { caller ≡ seat.old.me.0.number }
        ensures table { seat.new.table_id ≡ seat.old.table_id }
        ensures made { (seat.new.me.1 ≡ seat.old.me.1) × AnswersAndPrunes map call result.reply result.words seat.old.me.0 seat.new.me.0 }
    {
        let backoff = Backoff::new();
        for _ in rt.forever() {
            match self.descend(seat, call, map, key) {
                Reached::Answered(reply) => return Paid { reply, words: 0 },
                Reached::Stands { node, level } => {
                    if let Some(made) = self.make_at(
                        rt, seat, call, map, key, node, level, caller, next,
                    ) {
                        return made;
                    }
                }
            }
            backoff.snooze();
        }
        unreachable!()
    }

    // Makes a call, by the seat of a caller whose last event has this number.
    fn make<R: Wait>(
        &self,
        rt: &R,
        seat: &mut Seat<(), View>,
        call: MapCall<u32>,
        map: u32,
        key: u32,
        caller: u32,
        next: u64,
        time: Stamp,
    ) -> Paid
        requires table { IsSeatOf self.now.words seat.old }
        requires call { (map_key call ≡ Some key) × (cost_of call ≡ 1) }
        requires values { HasSmallValues call }
        requires unit { HasUnit seat.old.me.0.owns next }
        requires free { IsFree (begin_of self.now.words) seat.old.me × (length seat.old.me.0.owns ≤ 1) }
        requires map { map < maps_of self.now }
        requires caller { caller ≡ seat.old.me.0.number }
        ensures table { seat.new.table_id ≡ seat.old.table_id }
        ensures made { (seat.new.me.1 ≡ seat.old.me.1) × MakesAndPrunes map call result.reply result.words (at_time seat.old.me.0 time.time) seat.new.me.0 }
        ensures room { HasRoomWithin seat.new.me.0 }
    {
        self.come_in(rt, seat, map, time);
        let made = self.make_inside(rt, seat, call, map, key, caller, next);
        self.words.go_out(seat, map);
        made
    }
}
