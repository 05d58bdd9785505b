//! The steps of a cursor over a map: it begins at the map's root, reads the slot where it stands, goes up, and at its end shows
//! none. It has a seat of its own, which the caller's takes in for each step, and lets go behind it.
ghost use Rattle.std.specs.Prelude.{◌≡◌, ℕ, ◌<◌, true, List, [], ◌∷◌, ◌++◌, None, length};
ghost use Rattle.table_rule.specs.declared.view.Gate.TheVariants.{Outside};
ghost use Rattle.table_rule.specs.declared.view.Spot.{Spot};
ghost use Rattle.table_rule.specs.Cursors.{mounted, unmounted, cursor_seat, BeginsCursor, SweepsSlot, GoesUp, ShowsNone, Sweeping, StandsIn};
ghost use Rattle.table_words.specs.SweepLaws.{SweepLaws};
ghost use Rattle.table_words.specs.Seats.{begin_of, IsSeatOf};
ghost use Rattle.table_rule.specs.Walking.{HasWords};

use crate::copies::ZERO;
use crate::laws::history_laws;
use crate::words::TableWords;
use atomic_table::Seat;
use stamps::Stamp;
use std::marker::Brand;
use table_rule::cursors::{BeginCursor, Mount, Rise, ShowNone, Sweep, Unmount};
use table_rule::subject::{Timed, Way};
use table_rule::view::View;
use trie_nodes::Slot;
use trie_nodes::laws::order::a_walk_passes_each_key_once;
use trie_nodes::laws::paths::{a_path_has_a_slot_of_each_level, each_slot_has_a_key};
use trie_nodes::layout::slot_word;

impl TableWords {
    /// Begins a cursor at the root of a map, whose place it gives, for a caller whose last event has this number.
    pub fn begin_at(&self, seat: &mut Seat<(), View>, map: u32, _time: Stamp) -> u64
        requires table { IsSeatOf self.now seat.old }
        requires live { (seat.old.me.0.live ≡ true) × (seat.old.me.0.begin ≡ begin_of self.now) × (0 < length seat.old.me.0.owns) × (seat.old.me.0.walk ≡ None) }
        requires map { map < (begin_of self.now).maps }
        ensures table { seat.new.table_id ≡ seat.old.table_id }
        ensures begun { BeginsCursor map _time.time seat.old.me result seat.new.me }
    {
        self.begin_at_as::<Brand>(seat, map, _time)
    }

    // The same, at a map that is told by a type.
    fn begin_at_as<W: Way + Timed>(&self, seat: &mut Seat<(), View>, map: u32, _time: Stamp) -> u64
        requires table { IsSeatOf self.now seat.old }
        requires live { (seat.old.me.0.live ≡ true) × (seat.old.me.0.begin ≡ begin_of self.now) × (0 < length seat.old.me.0.owns) × (seat.old.me.0.walk ≡ None) }
        requires map { map < (begin_of self.now).maps }
        requires told { W.map ≡ map }
        ensures table { seat.new.table_id ≡ seat.old.table_id }
        ensures begun { BeginsCursor W.map W.time seat.old.me result seat.new.me }
    {
        history_laws();
        sweep_laws();
        let word = self.root_word(map);
        self.table.shared.load::<BeginCursor<W>>(seat, word)
    }

    /// Reads the slot where the seat's cursor stands.
    pub fn sweep(&self, seat: &mut Seat<(), View>, node: u64, slot: u32) -> Slot
        requires table { IsSeatOf self.now seat.old }
        requires cursor { (z : Spot) × Sweeping (begin_of self.now) seat.old.me z × StandsIn z node slot }
        requires words { HasWords seat.old.me.0 node 18 }
        requires slot { slot < 16 }
        ensures table { seat.new.table_id ≡ seat.old.table_id }
        ensures swept { SweepsSlot seat.old.me result seat.new.me }
    {
        history_laws();
        sweep_laws();
        Slot::of_word(self.table.shared.load::<Sweep>(seat, slot_word(node, slot)))
    }

    /// The seat's cursor goes up from a node of which it has passed all slots.
    pub fn rise(&self, seat: &mut Seat<(), View>)
        requires table { IsSeatOf self.now seat.old }
        requires cursor { (z : Spot) × (slot : ℕ) × (front : List ℕ) × (above : List ℕ) × (node : ℕ) × Sweeping (begin_of self.now) seat.old.me z × (z.slots ≡ front ++ slot ∷ 16 ∷ []) × (z.nodes ≡ above ++ node ∷ []) }
        ensures table { seat.new.table_id ≡ seat.old.table_id }
        ensures up { GoesUp seat.old.me 0 seat.new.me }
    {
        history_laws();
        sweep_laws();
        self.table.shared.load::<Rise>(seat, ZERO);
    }

    /// The seat's cursor has passed all slots of its root, and shows none.
    pub fn show_none(&self, seat: &mut Seat<(), View>)
        requires table { IsSeatOf self.now seat.old }
        requires cursor { (z : Spot) × Sweeping (begin_of self.now) seat.old.me z × (z.slots ≡ 16 ∷ []) }
        ensures table { seat.new.table_id ≡ seat.old.table_id }
        ensures none { ShowsNone seat.old.me 0 seat.new.me }
    {
        history_laws();
        sweep_laws();
        self.table.shared.load::<ShowNone>(seat, ZERO);
    }

    /// The seat of a caller whose last event has this number takes in its cursor's.
    pub fn mount(&self, seat: &mut Seat<(), View>, cursor: Seat<(), View>, _time: Stamp)
        requires table { IsSeatOf self.now seat.old × IsSeatOf self.now cursor }
        requires live { (seat.old.me.0.live ≡ true) × (cursor.me.0.live ≡ true) × (seat.old.me.0.walk ≡ None) }
        requires nobody { (length cursor.me.0.owns ≡ 0) × (cursor.me.1 ≡ []) }
        ensures table { seat.new.table_id ≡ seat.old.table_id }
        ensures mounted { seat.new.me ≡ (mounted _time.time seat.old.me.0 cursor.me.0, seat.old.me.1) }
    {
        self.mount_as::<Brand>(seat, cursor, _time);
    }

    // The same, at a number that is told by a type.
    fn mount_as<T: Timed>(&self, seat: &mut Seat<(), View>, cursor: Seat<(), View>, _time: Stamp)
        requires table { IsSeatOf self.now seat.old × IsSeatOf self.now cursor }
        requires live { (seat.old.me.0.live ≡ true) × (cursor.me.0.live ≡ true) × (seat.old.me.0.walk ≡ None) }
        requires nobody { (length cursor.me.0.owns ≡ 0) × (cursor.me.1 ≡ []) }
        ensures table { seat.new.table_id ≡ seat.old.table_id }
        ensures mounted { seat.new.me ≡ (mounted T.time seat.old.me.0 cursor.me.0, seat.old.me.1) }
    {
        self.table.shared.join_seat::<Mount<T>>(seat, cursor);
    }

    /// A caller's seat lets its cursor go.
    pub fn unmount(&self, seat: &mut Seat<(), View>) -> Seat<(), View>
        requires table { IsSeatOf self.now seat.old }
        requires live { (seat.old.me.0.live ≡ true) × (seat.old.me.0.gate ≡ Outside) }
        ensures table { (seat.new.table_id ≡ seat.old.table_id) × (result.table_id ≡ seat.old.table_id) }
        ensures seats { (seat.new.me ≡ (unmounted seat.old.me.0, seat.old.me.1)) × (result.me ≡ (cursor_seat seat.old.me.0, [])) }
    {
        self.table.shared.split_seat::<Unmount>(seat)
    }
}

// What a cursor's walk stands on.
fn sweep_laws()
    ensures { SweepLaws }
{
    a_path_has_a_slot_of_each_level();
    each_slot_has_a_key();
    a_walk_passes_each_key_once();
}
