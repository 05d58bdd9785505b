//! What a call on an atomic tells its caller, in the words of whoever reads an atomic. It is the contract of a function that does nothing.
ghost use Rattle.std.specs.Prelude.{◌≡◌, ℕ, ◌<◌, Some, slice_get};
ghost use Rattle.sync_model.specs.declared.item.Item.{Item};
ghost use Rattle.sync_model.specs.declared.item.SharedEntry.{SharedEntry};
ghost use Rattle.sync_model.specs.Journal.{Begins};
ghost use Rattle.sync_model.specs.SharedHistory.{number_at, contents_after};
ghost use Rattle.sync_types.specs.declared.atomic_object.AtomicCall.{AtomicCall};
ghost use Rattle.sync_types.specs.declared.atomic_object.AtomicCall.TheVariants.{Load};
ghost use Rattle.sync_types.specs.declared.atomic_object.AtomicReply.{AtomicReply};
ghost use Rattle.sync_types.specs.declared.atomic_object.AtomicReply.TheVariants.{Held};
ghost use Rattle.sync_types.specs.declared.atomic_object.Number.{Number};
ghost use Rattle.shared_table.specs.Notes.{seen_by};
ghost use Rattle.shared_table.specs.Tables.{caller_count, first_of};
ghost use Rattle.go_atomic.specs.Typed.{MakesCall};

use shared_table::laws::what_was_seen_is_of_the_tables_callers;
use shared_table::{SharedNote, SharedTable};
use sync_model::laws::shared_steps::histories_go_on;

/// A load answers what its atomic holds after all that its caller has then seen, and not what it held at some moment before. What the
/// caller has then seen begins with all that it had seen before. Each entry there is a call of one of the table's callers.
pub fn a_load_answers_what_all_that_was_seen_leaves()
    ensures load { (table : SharedTable) (atomic : ℕ) (number : Number) (old new : SharedNote) → MakesCall table atomic Load (Held number) old new
        → number ≡ number_at (contents_after (first_of table) (seen_by new)) atomic }
    ensures begins { (table : SharedTable) (atomic : ℕ) (call : AtomicCall) (reply : AtomicReply) (old new : SharedNote) → MakesCall table atomic call reply old new → Begins (seen_by new) (seen_by old) }
    ensures entries { (table : SharedTable) (atomic n : ℕ) (call : AtomicCall) (reply : AtomicReply) (old new : SharedNote) (entry : SharedEntry) (makes : MakesCall table atomic call reply old new) → slice_get (seen_by new) n ≡ Some entry
        → (entry.caller < caller_count table) × ((j : ℕ) × (x : Item) × (slice_get (makes.2.calls entry.caller) j ≡ Some x) × (x.place ≡ n) × (x.call ≡ entry.call) × (x.reply ≡ entry.reply)) }
{
    histories_go_on();
    what_was_seen_is_of_the_tables_callers();
}
