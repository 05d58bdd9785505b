//! The steps of a call that writes a map, up to the write: coming in by the map's gate, taking the lock of a node, reading a
//! slot under it, writing a word of the own room, giving the lock back, and going out.
ghost use Rattle.std.specs.Prelude.{◌≡◌, ℕ, ◌+◌, ◌<◌, List, Some, None, MatchBool, length};
ghost use Rattle.table_rule.specs.declared.view.Gate.TheVariants.{Outside, Inside};
ghost use Rattle.table_rule.specs.declared.view.Lock.{Lock};
ghost use Rattle.table_rule.specs.declared.view.Own.{Own};
ghost use Rattle.table_rule.specs.declared.view.Walk.{Walk};
ghost use Rattle.table_rule.specs.Layout.{size_of};
ghost use Rattle.table_words.specs.Seats.{begin_of, IsSeatOf};
ghost use Rattle.table_rule.specs.Walking.{standing, walk_at, HasWords, Affords, IsFree, IsUncounted};
ghost use Rattle.sync_types.specs.SequentialMap.{map_key};
ghost use Rattle.sync_model.specs.Shared.{cost_of};
ghost use Rattle.table_rule.specs.Making.{StandsLocked, LooksHeld};
ghost use Rattle.table_rule.specs.Views.{at_time};
ghost use Rattle.table_rule.specs.Writing.{holding, lock_at, IsWriter, Holds, IsInside, HasRoomWithin, drafted, HasDraft};

use crate::laws::history_laws;
use crate::words::TableWords;
use atomic_table::Seat;
use stamps::Stamp;
use std::marker::Brand;
use std::sync::Wait;
use sync_types::MapCall;
use table_rule::subject::{Making, Timed, Way};
use table_rule::view::View;
use table_rule::writing::{ComeIn, Draft, DraftZero, GoOut, LookHeld, TryLock, Unlock};
use trie_nodes::layout::{DEAD, FREE, held_word, lock_word, slot_word};
use trie_nodes::{Slot, nibble};

impl TableWords {
    /// Tries to come in as a writer of the map, for a caller whose last event has this number. It doesn't where the gate is closed, or where another passed it just then. Only a
    /// call that may wait comes in, so no load does.
    pub fn try_come_in<R: Wait>(
        &self,
        _rt: &R,
        seat: &mut Seat<(), View>,
        map: u32,
        _time: Stamp,
    ) -> bool
        requires table { IsSeatOf self.now seat.old }
        requires free { IsFree (begin_of self.now) seat.old.me }
        requires map { map < (begin_of self.now).maps }
        ensures table { seat.new.table_id ≡ seat.old.table_id }
        ensures slots { seat.new.me.1 ≡ seat.old.me.1 }
        ensures inside { MatchBool result (seat.new.me.0 ≡ holding (at_time seat.old.me.0 _time.time) (Inside map) None None) (seat.new.me.0 ≡ seat.old.me.0) }
    {
        self.come_in_as::<Brand>(seat, map, _time)
    }

    // The same, at a map that is told by a type.
    fn come_in_as<W: Way + Timed>(&self, seat: &mut Seat<(), View>, map: u32, _time: Stamp) -> bool
        requires table { IsSeatOf self.now seat.old }
        requires free { IsFree (begin_of self.now) seat.old.me }
        requires map { map < (begin_of self.now).maps }
        requires told { W.map ≡ map }
        ensures table { seat.new.table_id ≡ seat.old.table_id }
        ensures slots { seat.new.me.1 ≡ seat.old.me.1 }
        ensures inside { MatchBool result (seat.new.me.0 ≡ holding (at_time seat.old.me.0 W.time) (Inside map) None None) (seat.new.me.0 ≡ seat.old.me.0) }
    {
        history_laws();
        let word = self.gate_word(map);
        let shared = &self.table.shared;
        let writers = shared.peek(word);
        if writers >= DEAD {
            return false;
        }
        shared.compare_exchange::<ComeIn<W>>(seat, word, writers, writers + 1) == writers
    }

    /// Whether a node is dead, so that nobody takes its lock any more. A writer looks.
    pub fn is_dead(&self, _seat: &Seat<(), View>, node: u64) -> bool
        requires no_load { IsUncounted _seat.now.me.0 }
        requires node { node < size_of (begin_of self.now) }
    {
        self.table.shared.peek(lock_word(node)) == DEAD
    }

    /// Tries the lock of the node where the seat stands, for the seat's caller. A lock that isn't free is only looked at, so that
    /// whoever waits doesn't take the word's cache line from the holder.
    pub fn try_lock(&self, seat: &mut Seat<(), View>, node: u64, caller: u32) -> bool
        requires table { IsSeatOf self.now seat.old }
        requires writer { (w : Walk) × (w.node ≡ node) × IsWriter (begin_of self.now) seat.old.me w }
        requires words { HasWords seat.old.me.0 node 18 }
        requires caller { caller ≡ seat.old.me.0.number }
        ensures table { seat.new.table_id ≡ seat.old.table_id }
        ensures slots { seat.new.me.1 ≡ seat.old.me.1 }
        ensures lock { (w : Walk) → seat.old.me.0.walk ≡ Some w → MatchBool result ((up : ℕ) × (seat.new.me.0 ≡ holding seat.old.me.0 seat.old.me.0.gate (Some (lock_at w up)) None)) (seat.new.me.0 ≡ seat.old.me.0) }
    {
        history_laws();
        let word = lock_word(node);
        let shared = &self.table.shared;
        if shared.peek(word) != FREE {
            return false;
        }
        let found = shared.compare_exchange::<TryLock>(seat, word, FREE, held_word(caller));
        found == FREE
    }

    /// The seat of a call on a key looks at the key's slot under the lock of the node where it stands.
    pub fn look_held(
        &self,
        seat: &mut Seat<(), View>,
        call: MapCall<u32>,
        map: u32,
        key: u32,
        node: u64,
        level: u32,
    ) -> Slot
        requires table { IsSeatOf self.now seat.old }
        requires call { (map_key call ≡ Some key) × Affords (cost_of call) seat.old.me.0.owns }
        requires stands { (up : ℕ) × StandsLocked (begin_of self.now) seat.old.me (walk_at map key node level (length seat.old.me.0.seen)) up }
        requires words { HasWords seat.old.me.0 node 18 }
        requires level { level < 8 }
        ensures table { seat.new.table_id ≡ seat.old.table_id }
        ensures found { LooksHeld call seat.old.me result seat.new.me }
    {
        self.look_held_as::<Brand>(seat, call, map, key, node, level)
    }

    // The same, with a call that is told by a type.
    fn look_held_as<C: Making>(
        &self,
        seat: &mut Seat<(), View>,
        _call: MapCall<u32>,
        map: u32,
        key: u32,
        node: u64,
        level: u32,
    ) -> Slot
        requires table { IsSeatOf self.now seat.old }
        requires call { (map_key C.call ≡ Some key) × Affords (cost_of C.call) seat.old.me.0.owns }
        requires stands { (up : ℕ) × StandsLocked (begin_of self.now) seat.old.me (walk_at map key node level (length seat.old.me.0.seen)) up }
        requires words { HasWords seat.old.me.0 node 18 }
        requires level { level < 8 }
        ensures table { seat.new.table_id ≡ seat.old.table_id }
        ensures found { LooksHeld C.call seat.old.me result seat.new.me }
    {
        history_laws();
        let word = slot_word(node, nibble(key, self.begin.seed, level));
        Slot::of_word(self.table.shared.load::<LookHeld<C>>(seat, word))
    }

    /// Gives the lock of a node back. The seat then stands nowhere.
    pub fn unlock(&self, seat: &mut Seat<(), View>, node: u64)
        requires table { IsSeatOf self.now seat.old }
        requires lock { (l : Lock) × (l.node ≡ node) × Holds (begin_of self.now) seat.old.me l }
        requires words { HasWords seat.old.me.0 node 18 }
        ensures table { seat.new.table_id ≡ seat.old.table_id }
        ensures unlocked { (seat.new.me.1 ≡ seat.old.me.1) × (seat.new.me.0 ≡ standing (holding seat.old.me.0 seat.old.me.0.gate None None) None None) }
    {
        history_laws();
        self.table
            .shared
            .store::<Unlock>(seat, lock_word(node), FREE);
    }

    /// Goes out of the map's gate.
    pub fn go_out(&self, seat: &mut Seat<(), View>, map: u32)
        requires table { IsSeatOf self.now seat.old }
        requires inside { IsInside (begin_of self.now) seat.old.me map }
        requires map { map < (begin_of self.now).maps }
        ensures table { seat.new.table_id ≡ seat.old.table_id }
        ensures out { (seat.new.me.1 ≡ seat.old.me.1) × (seat.new.me.0 ≡ holding seat.old.me.0 Outside None None) }
        ensures room { HasRoomWithin seat.old.me.0 }
    {
        history_laws();
        let word = self.gate_word(map);
        self.table.shared.fetch_sub::<GoOut>(seat, word, 1);
    }

    /// Writes the next word of the caller's own room, which no slot leads to. So far it holds this many words. The words of the room
    /// are 0 until they are written, so a 0 is only read: a write costs ten times as much, and most words of a chain are 0.
    pub fn draft(&self, seat: &mut Seat<(), View>, next: u64, written: u64, new: u64)
        requires table { IsSeatOf self.now seat.old }
        requires room { (own : Own) × (owns : List Own) × HasDraft (begin_of self.now) seat.old.me own owns next written }
        ensures table { seat.new.table_id ≡ seat.old.table_id }
        ensures written { (seat.new.me.1 ≡ seat.old.me.1) × (seat.new.me.0 ≡ drafted seat.old.me.0 new) }
    {
        history_laws();
        let word = (next + written) as usize;
        let shared = &self.table.shared;
        if new == 0 {
            shared.load::<DraftZero>(seat, word);
            return;
        }
        shared.store::<Draft>(seat, word, new);
    }
}
