//! What the Range law of a walk says to its caller, and what a caller has seen behind a call. Each law is the contract of a function that
//! does nothing.
ghost use Rattle.std.specs.Prelude.{◌≡◌, ◌≢◌, ℕ, ◌^◌, ◌<◌, ◌≤◌, Some, None, slice_get};
ghost use Rattle.sync_model.specs.declared.item.Item.{Item};
ghost use Rattle.sync_model.specs.declared.item.SharedEntry.{SharedEntry};
ghost use Rattle.sync_model.specs.Journal.{Begins};
ghost use Rattle.sync_model.specs.SharedCalls.{Knows, IsStep};
ghost use Rattle.sync_model.specs.SharedHistory.{value_at, contents_at};
ghost use Rattle.shared_table.specs.Notes.{seen_by};
ghost use Rattle.shared_table.specs.Tables.{caller_count, first_of};
ghost use Rattle.sync_types.specs.declared.map_object.MapCall.{MapCall};
ghost use Rattle.sync_types.specs.declared.map_object.MapReply.{MapReply};
ghost use Rattle.go_map.specs.Maps.{MakesCall};
ghost use Rattle.go_map.specs.Ranges.{KeepsRangeLaw};

use shared_table::laws::what_was_seen_is_of_the_tables_callers;
use shared_table::{SharedNote, SharedTable};
use sync_model::laws::shared::a_range_shows_each_key_once_and_misses_none;

/// A walk shows no key twice. It shows a key only with a value that the key had after all that its caller knew when it began, and
/// before the step that shows it. And when it ends it has shown every key that was there all the while.
pub fn a_walk_shows_each_key_once_and_misses_none()
    ensures once { (table : SharedTable) (m b i j key value other : ℕ) (note : SharedNote) (x y : Item) (law : KeepsRangeLaw table m b note)
        → IsStep law.holding.items b i x (Some (key, value)) → IsStep law.holding.items b j y (Some (key, other)) → i ≡ j }
    ensures shown { (table : SharedTable) (m b i key value : ℕ) (note : SharedNote) (x : Item) (law : KeepsRangeLaw table m b note)
        → IsStep law.holding.items b i x (Some (key, value))
        → (n : ℕ) × Knows law.lawful.calls law.begin.front n × (n ≤ x.place) × (value_at (contents_at (first_of table) (seen_by note) n) m key ≡ Some value) }
    ensures misses_none { (table : SharedTable) (m b i key : ℕ) (note : SharedNote) (x : Item) (law : KeepsRangeLaw table m b note)
        → IsStep law.holding.items b i x None → key < 2 ^ 32
        → ((n : ℕ) → Knows law.lawful.calls law.begin.front n → n ≤ x.place → value_at (contents_at (first_of table) (seen_by note) n) m key ≢ None)
        → (j : ℕ) × (y : Item) × (value : ℕ) × (j < i) × IsStep law.holding.items b j y (Some (key, value)) }
{
    a_range_shows_each_key_once_and_misses_none();
}

/// What a caller has seen behind a call on a map begins with what it had seen before. Each entry there is a call of one of the table's
/// callers, at its place.
pub fn what_a_call_has_seen_is_of_the_tables_callers()
    ensures begins { (table : SharedTable) (map : ℕ) (call : MapCall ℕ) (reply : MapReply) (old new : SharedNote) → MakesCall table map call reply old new → Begins (seen_by new) (seen_by old) }
    ensures entries { (table : SharedTable) (map n : ℕ) (call : MapCall ℕ) (reply : MapReply) (old new : SharedNote) (entry : SharedEntry) (makes : MakesCall table map call reply old new) → slice_get (seen_by new) n ≡ Some entry
        → (entry.caller < caller_count table) × ((j : ℕ) × (x : Item) × (slice_get (makes.2.calls entry.caller) j ≡ Some x) × (x.place ≡ n) × (x.call ≡ entry.call) × (x.reply ≡ entry.reply)) }
{
    what_was_seen_is_of_the_tables_callers();
}
