//! What the maps and atomics contain when no seat makes a step any more.
ghost use Rattle.std.specs.Prelude.{◌≡◌, ◌^◌, ◌<◌, true, length, map};
ghost use Rattle.sync_types.specs.SequentialAtomic.{kind_of};
ghost use Rattle.table_words.specs.EndContents.{contents_of};
ghost use Rattle.table_words.specs.EndLaws.{EndLaws};
ghost use Rattle.sync_model.specs.EndsOfHistory.{HasKeysBelow};
ghost use Rattle.table_words.specs.Seats.{begin_of, EndsAt, IsSeatOf};

use crate::ended::TableEnds;
use crate::laws::history_laws;
use crate::words::TableWords;
use atomic_table::Seat;
use sync_model::laws::shared_steps::maps_and_atomics_stay;
use table_rule::begin::Begin;
use table_rule::view::View;
use trie_nodes::laws::nodes::nodes_stand_for_what_their_slots_show;
use trie_nodes::laws::walks::a_walk_finds_each_key_once;

impl TableWords {
    /// Ends the table, with one of its seats, and gives what its maps and atomics contain after the whole history. There is a
    /// map and an atomic of each number, of its type, and all keys that are there are numbers of 32 bits. It takes no memory.
    pub fn ends(self, seat: Seat<(), View>) -> TableEnds
        requires table { IsSeatOf self seat }
        requires live { (seat.me.0.live ≡ true) × (seat.me.0.begin ≡ begin_of self) }
        ensures ends { EndsAt seat.me.0 (contents_of result) }
        ensures maps { length (contents_of result).maps ≡ (begin_of self).maps }
        ensures kinds { map kind_of (contents_of result).numbers ≡ (begin_of self).kinds }
        ensures keys { HasKeysBelow (2 ^ 32) (contents_of result) }
    {
        history_laws();
        end_laws();
        let TableWords { table, begin } = self;
        let closed = table.close_with(seat);
        let Begin {
            kinds,
            maps,
            seed,
            ..
        } = begin;
        TableEnds::new(closed, kinds, maps, seed)
    }
}

// What the end of a table stands on.
fn end_laws()
    ensures { EndLaws }
{
    maps_and_atomics_stay();
    nodes_stand_for_what_their_slots_show();
    a_walk_finds_each_key_once();
}
