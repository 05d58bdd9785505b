//! Looking a key up: from a map's root word down by the slots of the key's path. It waits for nobody.
ghost use Rattle.std.specs.Prelude.{◌≡◌, ◌+◌, ◌<◌, ◌≤◌, Some, None, IsSome, MatchOption};
ghost use Rattle.sync_model.specs.declared.item.SharedCall.TheVariants as calls;
ghost use Rattle.sync_model.specs.declared.item.SharedReply.TheVariants as replies;
ghost use Rattle.sync_types.specs.declared.map_object.MapCall.TheVariants.{Load};
ghost use Rattle.sync_types.specs.declared.map_object.MapReply.TheVariants.{Found};
ghost use Rattle.sync_model.specs.Note.{SameHome};
ghost use Rattle.sync_model.specs.Shared.{Called, state_of};
ghost use Rattle.table_rule.specs.declared.view.Leaf.{Leaf};
ghost use Rattle.table_rule.specs.Operations.{PlacesCall};
ghost use Rattle.table_words.specs.Seats.{begin_of, IsSeatOf};
ghost use Rattle.table_rule.specs.Views.{at_time};
ghost use Rattle.table_rule.specs.Walking.{standing, given_by, HasWords, IsFree, AtEntry};
ghost use Rattle.shared_table.specs.Notes.{front_by, own_by, seen_by, IsLawfulFor, IsNoteOf};
ghost use Rattle.shared_table.specs.Tables.{maps_of, first_of};

use crate::note::{SharedNote, time_of};
use crate::table::SharedTable;
use atomic_table::Seat;
use stamps::Stamp;
use std::sync::ledger::Ledger;
use sync_types::MapCall;
use table_words::{Steps, View};
use trie_nodes::{LEVELS, Slot};

impl SharedTable {
    /// The value of a map's key, read at one moment since the call began, whatever other callers do. It waits for nobody, and
    /// can't be refused. It reads the map's root word, a slot in each node on the key's path, and the two words of an entry:
    /// 11 words at most, each of which `steps` counts.
    pub fn look_up<L: Ledger>(
        &self,
        note: &mut SharedNote,
        map: u32,
        key: u32,
        steps: &mut Steps<L>,
    ) -> Option<u64>
        requires note { IsNoteOf self.now note.old × IsSome (own_by note.old) }
        requires map { map < maps_of self.now }
        ensures home { SameHome IsNoteOf note.old note.new }
        ensures called { Called (first_of self.now) (calls.Map map (Load key)) (replies.Map (Found result)) 0 (state_of own_by front_by seen_by note.old) (state_of own_by front_by seen_by note.new) }
        ensures lawful { IsLawfulFor self.now note.new }
        ensures cost { steps.new ≤ steps.old + 11 }
        ensures least { MatchOption result (steps.old + 2 ≤ steps.new) (λ value. steps.old + 4 ≤ steps.new) }
    {
        let value = self.walk(&mut note.seat, map, key, note.stamp.same(), steps);
        note.stamp = time_of(&note.seat);
        value
    }

    // The same, by the seat of a caller whose last event has this number.
    fn walk<L: Ledger>(
        &self,
        seat: &mut Seat<(), View>,
        map: u32,
        key: u32,
        time: Stamp,
        steps: &mut Steps<L>,
    ) -> Option<u64>
        requires table { IsSeatOf self.now.words seat.old }
        requires free { IsFree (begin_of self.now.words) seat.old.me }
        requires map { map < maps_of self.now }
        ensures table { seat.new.table_id ≡ seat.old.table_id }
        ensures called { (seat.new.me.1 ≡ seat.old.me.1) × PlacesCall (calls.Map map (Load key)) (replies.Map (Found result)) (at_time seat.old.me.0 time.time) seat.new.me.0 }
        ensures cost { steps.new ≤ steps.old + 11 }
        ensures least { MatchOption result (steps.old + 2 ≤ steps.new) (λ value. steps.old + 4 ≤ steps.new) }
    {
        let mut node = self.words.enter(seat, map, key, time.same(), steps);
        for level in 0..LEVELS {
            match self
                .words
                .look(seat, MapCall::Load { key }, map, key, node, level, steps)
            {
                Slot::Empty => return None,
                Slot::Node(below) => node = below,
                Slot::Entry(place) => return self.read_entry(seat, place, key, steps),
            }
        }
        unreachable!()
    }

    // The seat reads the entry that it knows.
    pub(crate) fn read_entry<L: Ledger>(
        &self,
        seat: &mut Seat<(), View>,
        place: u64,
        key: u32,
        steps: &mut Steps<L>,
    ) -> Option<u64>
        requires table { IsSeatOf self.now.words seat.old }
        requires begin { seat.old.me.0.begin ≡ (begin_of self.now.words) }
        requires entry { AtEntry seat.old.me place }
        requires words { HasWords seat.old.me.0 place 2 }
        ensures table { seat.new.table_id ≡ seat.old.table_id }
        ensures left { (seat.new.me.1 ≡ seat.old.me.1) × (seat.new.me.0 ≡ standing seat.old.me.0 seat.old.me.0.walk None) }
        ensures value { (l : Leaf) → seat.old.me.0.leaf ≡ Some l → result ≡ given_by l key }
        ensures counted { steps.new ≡ steps.old + 2 }
    {
        let (held, value) = self.words.read_pair(seat, place, steps);
        if held == key as u64 {
            Some(value)
        } else {
            None
        }
    }
}
