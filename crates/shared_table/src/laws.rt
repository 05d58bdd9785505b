//! What is told of a note, in the words of whoever asks whose calls its holder knows. It is the contract of a function that does nothing.
ghost use Rattle.std.specs.Prelude.{◌≡◌, ℕ, ◌<◌, Some, slice_get, slice_index};
ghost use Rattle.sync_model.specs.declared.item.Item.{Item};
ghost use Rattle.sync_model.specs.declared.item.SharedEntry.{SharedEntry};
ghost use Rattle.sync_model.specs.Note.{Holding};
ghost use Rattle.shared_table.specs.Notes.{counts_by, own_by, seen_by, IsLawfulFor};
ghost use Rattle.shared_table.specs.Tables.{caller_count};

use crate::note::SharedNote;
use crate::table::SharedTable;
use sync_model::laws::shared::each_entry_is_a_call;

/// What a note's holder has seen, and what its front counts, are calls of the table's callers. Each entry that it has seen is a call of
/// a caller of the table, at its place in the history. Each call that the front counts was made, by a caller of the table. And of the
/// lists that explain all this, the holder's own is that of its own calls.
pub fn what_was_seen_is_of_the_tables_callers()
    ensures entries { (table : SharedTable) (note : SharedNote) (law : IsLawfulFor table note) (n : ℕ) (entry : SharedEntry) → slice_get (seen_by note) n ≡ Some entry
        → (entry.caller < caller_count table) × ((j : ℕ) × (x : Item) × (slice_get (law.calls entry.caller) j ≡ Some x) × (x.place ≡ n) × (x.call ≡ entry.call) × (x.reply ≡ entry.reply)) }
    ensures counted { (table : SharedTable) (note : SharedNote) (law : IsLawfulFor table note) (c i : ℕ) → i < slice_index (counts_by note) c
        → (c < caller_count table) × ((x : Item) × (slice_get (law.calls c) i ≡ Some x)) }
    ensures own { (table : SharedTable) (note : SharedNote) (law : IsLawfulFor table note) (holding : Holding) → own_by note ≡ Some holding → law.calls holding.number ≡ holding.items }
{
    each_entry_is_a_call();
}
