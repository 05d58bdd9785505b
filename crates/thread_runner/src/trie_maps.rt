//! A run's maps and atomics in one table of words: maps are hash tries, and loads wait for nobody.
ghost use Rattle.std.specs.Prelude.{◌≡◌, ◌+◌, ◌*◌, ◌≤◌, ◌++◌, List, length, vec_len, vec_capacity};
ghost use Rattle.sync_model.specs.declared.item.SharedEntry.{SharedEntry};
ghost use Rattle.sync_model.specs.EndsOfHistory.{ends_by};
ghost use Rattle.sync_model.specs.Shared.{AreAllCallers, calls_of};
ghost use Rattle.sync_model.specs.SharedCalls.{Lawful};
ghost use Rattle.sync_model.specs.SharedHistory.{contents_after, first_contents};
ghost use Rattle.shared_table.specs.Notes.{own_by, IsNoteOf};
ghost use Rattle.go_map.specs.Tries.{kinds_in, maps_in, count_in};

use crate::counts::{atomic_kinds, map_count, spares};
use crate::run_maps::RunMaps;
use go_map::Trie;
use shared_table::{SharedNote, SharedTable};
use std::alloc::{AllocError, Global};
use sync_model::Caller;
use sync_types::End;
use workload::Workload;
use workload::laws::{a_workload_has_few_objects, keys_are_numbered_by_first_appearance};

impl RunMaps for Trie {
    type Room = ();

    ghost has_room = { λ room callers. Unit {0} };

    fn new_for(
        alloc: Global,
        workload: &Workload,
    ) -> Result<(Trie, Vec<Caller<SharedNote>>, ()), AllocError> {
        a_workload_has_few_objects();
        keys_are_numbered_by_first_appearance();
        let _workers = workload.workers();
        let kinds = atomic_kinds(alloc, workload)?;
        let spares = spares(alloc, workload)?;
        let (table, callers) = SharedTable::new(alloc, &kinds, map_count(workload), 0, &spares)?;
        Ok((Trie(table), callers, ()))
    }

    fn end(
        self,
        callers: Vec<Caller<SharedNote>>,
        room: (),
        atomics: &[usize],
        maps: &[usize],
        order: &[u32],
        ends: &mut Vec<End>,
    )
        requires callers { AreAllCallers IsNoteOf own_by self.0 callers.items (count_in self) }
        requires room { Unit {0} }
        requires list { vec_len ends.old + length atomics.now + length maps.now * length order.now ≤ vec_capacity ends.old }
        ensures ends { (history : List SharedEntry) → Lawful (first_contents (maps_in self) (kinds_in self)) history (calls_of own_by callers.items)
            → ends.new.items ≡ ends.old.items ++ ends_by order.now atomics.now maps.now (contents_after (first_contents (maps_in self) (kinds_in self)) history) }
    {
        let Trie(table) = self;
        table.ends(callers).push_ends(atomics, maps, order, ends);
    }
}
