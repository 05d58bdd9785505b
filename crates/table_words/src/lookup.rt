//! The reads of a seat on its way to a key: a map's root word, then a slot in each node on the key's path, and the words of an
//! entry. None of them waits. Each takes a counter, which rises by one for each look at a word. A load can make no other reading
//! step: those that nobody counts ask for a seat that is inside of a gate, or has a cursor, and a load's seat has neither.
ghost use Rattle.std.specs.Prelude.{◌≡◌, ◌+◌, ◌<◌, ◌^◌, Some, length};
ghost use Rattle.sync_types.specs.SequentialMap.{map_key};
ghost use Rattle.sync_model.specs.Shared.{cost_of};
ghost use Rattle.table_rule.specs.declared.view.Leaf.{Leaf};
ghost use Rattle.table_words.specs.Seats.{begin_of, IsSeatOf};
ghost use Rattle.table_rule.specs.Walking.{standing, told_at, walk_at, HasWords, Enters, MayEnter, FindsIn, Affords, OnWay, AtEntry, IsUncounted};

use crate::laws::history_laws;
use crate::steps::Steps;
use crate::words::TableWords;
use atomic_table::Seat;
use stamps::Stamp;
use std::marker::Brand;
use std::sync::ledger::Ledger;
use sync_types::MapCall;
use table_rule::lookup::{Enter, KeepValue, LookIn, ReadKey, ReadValue};
use table_rule::subject::{Making, Timed, Way};
use table_rule::view::{Leaf, View};
use trie_nodes::layout::{key_word, slot_word, value_word};
use trie_nodes::{Slot, nibble};

impl TableWords {
    /// The seat of a caller whose last event has this number comes to the map's root. It looks at one word.
    pub fn enter<L: Ledger>(
        &self,
        seat: &mut Seat<(), View>,
        map: u32,
        key: u32,
        _time: Stamp,
        steps: &mut Steps<L>,
    ) -> u64
        requires table { IsSeatOf self.now seat.old }
        requires may { MayEnter (begin_of self.now) seat.old.me }
        requires map { map < (begin_of self.now).maps }
        ensures table { seat.new.table_id ≡ seat.old.table_id }
        ensures entered { Enters map key (told_at _time.time seat.old.me) result seat.new.me }
        ensures counted { steps.new ≡ steps.old + 1 }
    {
        let root = self.enter_told::<Brand>(seat, map, key, _time);
        steps.tick();
        root
    }

    // The same, on a way that is told by a type.
    fn enter_told<W: Way + Timed>(
        &self,
        seat: &mut Seat<(), View>,
        map: u32,
        key: u32,
        _time: Stamp,
    ) -> u64
        requires table { IsSeatOf self.now seat.old }
        requires may { MayEnter (begin_of self.now) seat.old.me }
        requires map { map < (begin_of self.now).maps }
        requires told { (W.map ≡ map) × (W.key < 2 ^ 32) }
        ensures table { seat.new.table_id ≡ seat.old.table_id }
        ensures entered { Enters map W.key (told_at W.time seat.old.me) result seat.new.me }
    {
        self.enter_as::<W>(seat, map, key)
    }

    /// The same, where nobody counts. The seat was told its caller's number before.
    pub fn enter_uncounted(&self, seat: &mut Seat<(), View>, map: u32, key: u32) -> u64
        requires table { IsSeatOf self.now seat.old }
        requires may { MayEnter (begin_of self.now) seat.old.me }
        requires no_load { IsUncounted seat.old.me.0 }
        requires map { map < (begin_of self.now).maps }
        ensures table { seat.new.table_id ≡ seat.old.table_id }
        ensures entered { Enters map key seat.old.me result seat.new.me }
    {
        self.enter_as::<Brand>(seat, map, key)
    }

    // The same, on a way that is told by a type.
    fn enter_as<W: Way + Timed>(&self, seat: &mut Seat<(), View>, map: u32, _key: u32) -> u64
        requires table { IsSeatOf self.now seat.old }
        requires may { MayEnter (begin_of self.now) seat.old.me }
        requires map { map < (begin_of self.now).maps }
        requires told { (W.map ≡ map) × (W.key < 2 ^ 32) }
        ensures table { seat.new.table_id ≡ seat.old.table_id }
        ensures entered { Enters map W.key (told_at W.time seat.old.me) result seat.new.me }
    {
        let word = self.root_word(map);
        self.table.shared.load::<Enter<W>>(seat, word)
    }

    /// The seat of a call on a key reads the key's slot in the node where it stands. It looks at one word.
    pub fn look<L: Ledger>(
        &self,
        seat: &mut Seat<(), View>,
        call: MapCall<u32>,
        map: u32,
        key: u32,
        node: u64,
        level: u32,
        steps: &mut Steps<L>,
    ) -> Slot
        requires table { IsSeatOf self.now seat.old }
        requires call { (map_key call ≡ Some key) × Affords (cost_of call) seat.old.me.0.owns }
        requires way { OnWay (begin_of self.now) seat.old.me (walk_at map key node level (length seat.old.me.0.seen)) }
        requires words { HasWords seat.old.me.0 node 18 }
        requires level { level < 8 }
        ensures table { seat.new.table_id ≡ seat.old.table_id }
        ensures found { (seat.new.me.1 ≡ seat.old.me.1) × FindsIn call (walk_at map key node level (length seat.old.me.0.seen)) result seat.old.me.0 seat.new.me.0 }
        ensures counted { steps.new ≡ steps.old + 1 }
    {
        let found = self.look_as::<Brand>(seat, call, map, key, node, level);
        steps.tick();
        found
    }

    /// The same, where nobody counts.
    pub fn look_uncounted(
        &self,
        seat: &mut Seat<(), View>,
        call: MapCall<u32>,
        map: u32,
        key: u32,
        node: u64,
        level: u32,
    ) -> Slot
        requires table { IsSeatOf self.now seat.old }
        requires call { (map_key call ≡ Some key) × Affords (cost_of call) seat.old.me.0.owns }
        requires way { OnWay (begin_of self.now) seat.old.me (walk_at map key node level (length seat.old.me.0.seen)) }
        requires no_load { IsUncounted seat.old.me.0 }
        requires words { HasWords seat.old.me.0 node 18 }
        requires level { level < 8 }
        ensures table { seat.new.table_id ≡ seat.old.table_id }
        ensures found { (seat.new.me.1 ≡ seat.old.me.1) × FindsIn call (walk_at map key node level (length seat.old.me.0.seen)) result seat.old.me.0 seat.new.me.0 }
    {
        self.look_as::<Brand>(seat, call, map, key, node, level)
    }

    // The same, with a call that is told by a type.
    fn look_as<C: Making>(
        &self,
        seat: &mut Seat<(), View>,
        _call: MapCall<u32>,
        map: u32,
        key: u32,
        node: u64,
        level: u32,
    ) -> Slot
        requires table { IsSeatOf self.now seat.old }
        requires call { (map_key C.call ≡ Some key) × Affords (cost_of C.call) seat.old.me.0.owns }
        requires way { OnWay (begin_of self.now) seat.old.me (walk_at map key node level (length seat.old.me.0.seen)) }
        requires words { HasWords seat.old.me.0 node 18 }
        requires level { level < 8 }
        ensures table { seat.new.table_id ≡ seat.old.table_id }
        ensures found { (seat.new.me.1 ≡ seat.old.me.1) × FindsIn C.call (walk_at map key node level (length seat.old.me.0.seen)) result seat.old.me.0 seat.new.me.0 }
    {
        history_laws();
        let word = slot_word(node, nibble(key, self.begin.seed, level));
        Slot::of_word(self.table.shared.load::<LookIn<C>>(seat, word))
    }

    // The seat reads the key of the entry that it knows.
    fn read_key(&self, seat: &mut Seat<(), View>, place: u64) -> u64
        requires table { IsSeatOf self.now seat.old }
        requires begin { seat.old.me.0.begin ≡ begin_of self.now }
        requires entry { AtEntry seat.old.me place }
        requires words { HasWords seat.old.me.0 place 2 }
        ensures table { seat.new.table_id ≡ seat.old.table_id }
        ensures same { seat.new.me ≡ seat.old.me }
        ensures key { (l : Leaf) → seat.old.me.0.leaf ≡ Some l → result ≡ l.key }
    {
        self.table.shared.load::<ReadKey>(seat, key_word(place))
    }

    /// The seat reads the entry that it knows, its key and its value, and leaves it. It looks at two words.
    pub fn read_pair<L: Ledger>(
        &self,
        seat: &mut Seat<(), View>,
        place: u64,
        steps: &mut Steps<L>,
    ) -> (u64, u64)
        requires table { IsSeatOf self.now seat.old }
        requires begin { seat.old.me.0.begin ≡ begin_of self.now }
        requires entry { AtEntry seat.old.me place }
        requires words { HasWords seat.old.me.0 place 2 }
        ensures table { seat.new.table_id ≡ seat.old.table_id }
        ensures left { (seat.new.me.1 ≡ seat.old.me.1) × (seat.new.me.0 ≡ standing seat.old.me.0 seat.old.me.0.walk None) }
        ensures pair { (l : Leaf) → seat.old.me.0.leaf ≡ Some l → (result.0 ≡ l.key) × (result.1 ≡ l.value) }
        ensures counted { steps.new ≡ steps.old + 2 }
    {
        steps.tick();
        steps.tick();
        self.read_both(seat, place)
    }

    /// The same, where nobody counts.
    pub fn read_pair_uncounted(&self, seat: &mut Seat<(), View>, place: u64) -> (u64, u64)
        requires table { IsSeatOf self.now seat.old }
        requires begin { seat.old.me.0.begin ≡ begin_of self.now }
        requires entry { AtEntry seat.old.me place }
        requires no_load { IsUncounted seat.old.me.0 }
        requires words { HasWords seat.old.me.0 place 2 }
        ensures table { seat.new.table_id ≡ seat.old.table_id }
        ensures left { (seat.new.me.1 ≡ seat.old.me.1) × (seat.new.me.0 ≡ standing seat.old.me.0 seat.old.me.0.walk None) }
        ensures pair { (l : Leaf) → seat.old.me.0.leaf ≡ Some l → (result.0 ≡ l.key) × (result.1 ≡ l.value) }
    {
        self.read_both(seat, place)
    }

    // The seat reads the entry that it knows, its key and its value, and leaves it.
    fn read_both(&self, seat: &mut Seat<(), View>, place: u64) -> (u64, u64)
        requires table { IsSeatOf self.now seat.old }
        requires begin { seat.old.me.0.begin ≡ begin_of self.now }
        requires entry { AtEntry seat.old.me place }
        requires words { HasWords seat.old.me.0 place 2 }
        ensures table { seat.new.table_id ≡ seat.old.table_id }
        ensures left { (seat.new.me.1 ≡ seat.old.me.1) × (seat.new.me.0 ≡ standing seat.old.me.0 seat.old.me.0.walk None) }
        ensures pair { (l : Leaf) → seat.old.me.0.leaf ≡ Some l → (result.0 ≡ l.key) × (result.1 ≡ l.value) }
    {
        let key = self.read_key(seat, place);
        let value = self.table.shared.load::<ReadValue>(seat, value_word(place));
        (key, value)
    }

    /// The seat of a writer reads the entry that it knows, and keeps it in mind.
    pub fn read_leaf(&self, seat: &mut Seat<(), View>, place: u64) -> Leaf
        requires table { IsSeatOf self.now seat.old }
        requires begin { seat.old.me.0.begin ≡ begin_of self.now }
        requires entry { AtEntry seat.old.me place }
        requires no_load { IsUncounted seat.old.me.0 }
        requires words { HasWords seat.old.me.0 place 2 }
        ensures table { seat.new.table_id ≡ seat.old.table_id }
        ensures same { seat.new.me ≡ seat.old.me }
        ensures leaf { seat.old.me.0.leaf ≡ Some result }
    {
        let key = self.read_key(seat, place);
        let value = self.table.shared.load::<KeepValue>(seat, value_word(place));
        Leaf { place, key, value }
    }
}
