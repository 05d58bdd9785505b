//! What the maps and atomics contain when all calls have returned.
ghost use Rattle.std.specs.Prelude.{◌≡◌, ◌^◌, ◌<◌, List, length, map};
ghost use Rattle.sync_types.specs.SequentialAtomic.{kind_of};
ghost use Rattle.sync_model.specs.declared.item.SharedEntry.{SharedEntry};
ghost use Rattle.sync_model.specs.Shared.{AreAllCallers, calls_of};
ghost use Rattle.sync_model.specs.SharedCalls.{Lawful};
ghost use Rattle.sync_model.specs.SharedHistory.{contents_after};
ghost use Rattle.table_words.specs.EndContents.{contents_of};
ghost use Rattle.sync_model.specs.EndsOfHistory.{AreEnds, HasKeysBelow};
ghost use Rattle.shared_table.specs.Notes.{own_by, seen_by, IsNoteOf};
ghost use Rattle.shared_table.specs.Tables.{caller_count, first_of, kinds_of, maps_of};

use crate::note::SharedNote;
use crate::table::SharedTable;
use sync_model::Caller;
use sync_model::laws::shared::the_calls_determine_the_history;
use sync_model::laws::shared_steps::one_more_call_keeps_the_law;
use table_words::TableEnds;

impl SharedTable {
    /// Ends the maps and atomics, with all their callers in order of number, and gives what they contain after the whole
    /// history: one that begins with what each caller has seen, and that is lawful with all their calls. It takes no memory,
    /// and waits for nobody. No other history is lawful with all their calls, so it is the one that `settle` tells. There is a
    /// map and an atomic of each number, of its type, and all keys that are there are numbers of 32 bits.
    pub fn ends(self, callers: Vec<Caller<SharedNote>>) -> TableEnds
        requires { AreAllCallers IsNoteOf own_by self callers.items (caller_count self) }
        ensures ends { AreEnds own_by seen_by (first_of self) callers.items (contents_of result) }
        ensures after { (history : List SharedEntry) → Lawful (first_of self) history (calls_of own_by callers.items) → contents_of result ≡ contents_after (first_of self) history }
        ensures maps { length (contents_of result).maps ≡ maps_of self }
        ensures kinds { map kind_of (contents_of result).numbers ≡ kinds_of self }
        ensures keys { HasKeysBelow (2 ^ 32) (contents_of result) }
    {
        the_calls_determine_the_history();
        one_more_call_keeps_the_law();
        let mut callers = callers;
        let all = self.gather(&mut callers);
        self.words.ends(all)
    }
}
